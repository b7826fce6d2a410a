//! The frames of a session: each says what is done next with the outcome of the part within it.

ghost use Rattle.std.specs.Prelude.{◌≡◌, [], ◌∷◌, IfOk, OnOk, MatchOption};
ghost use Rattle.code.specs.declared.made.Entry.TheVariants as entries;
ghost use Rattle.machine.specs.Frames.{stack};
ghost use Rattle.machine.specs.declared.frame.Frame.TheVariants as frame;

use acts::NoMemory;
use code::{Entry, Made};
use expects::turn::Turn;
use nesting::Held;
use std::alloc::Allocator;

/// What is done next with the outcome of the part within the frame.
#[derive(Drop)]
pub enum Frame<A: Allocator> {
    /// A code of which nothing is done yet, and how many levels may still nest in it.
    Code(Entry<A>, u8),
    /// A command that waits for a script or a formula that it runs.
    Held(Held<A>),
    /// A turn of `expect` that waits for the body that it chose.
    Turn(Box<Turn<A>, A>),
}

impl<A: Allocator> Frame<A> {
    /// Puts this frame on top of the others.
    pub fn push(self, frames: &mut Vec<Frame<A>, A>) -> Result<(), NoMemory>
        ensures { OnOk result (stack frames.new ≡ self ∷ stack frames.old) }
    {
        frames.push(self)?;
        Ok(())
    }

    /// Takes the top frame off; `None` where there is no frame.
    pub fn pop(frames: &mut Vec<Frame<A>, A>) -> Option<Frame<A>>
        ensures { MatchOption result ((stack frames.old ≡ []) × (stack frames.new ≡ []))
            (λ frame. stack frames.old ≡ frame ∷ stack frames.new) }
    {
        frames.pop()
    }
}

/// Puts a script or a formula on the stack, above the frame that takes its outcome.
pub(crate) fn put_above<A: Allocator>(
    frames: &mut Vec<Frame<A>, A>,
    it: Made<A>,
    levels: u8,
    under: Frame<A>,
) -> Result<(), NoMemory>
    ensures { IfOk result (λ _.
        stack frames.new ≡ frame.Code (entries.Made it) levels ∷ under ∷ stack frames.old) }
{
    under.push(frames)?;
    Frame::Code(Entry::Made(it), levels).push(frames)?;
    Ok(())
}

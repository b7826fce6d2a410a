//! A recorder of what is lent to it.

ghost use Rattle.std.specs.Prelude.{◌≡◌};
ghost use Rattle.acts.specs.Deed.{deed_of, reply_of};
ghost use Rattle.recorders.specs.Recorder as spec;
ghost use Rattle.recorders.specs.Recorder.{Begins, MayRecord, Notes};

use crate::recorder::write_step;
use acts::{Act, Answer, World};
use records::{Sink, write_header};
use std::alloc::Allocator;

/// A recorder whose world is lent to it, and so is the sink of the record, where one is made.
#[derive(Drop)]
pub struct LentRecorder<'w, 's, W, S> {
    pub world: &'w mut W,
    pub made: &'s mut Option<S>,
}

impl<A: Allocator, W: World<A>, S: Sink> World<A> for LentRecorder<'_, '_, W, S> {
    // A step that may be recorded, after which the same world and sink are still lent.
    ghost step = { λ before act reply after. MayRecord W.step S.adds S.has_failed
        (before.world.now, before.made.now) act reply (after.world.now, after.made.now)
        × (after.world.ghost_name ≡ before.world.ghost_name)
        × (after.made.ghost_name ≡ before.made.ghost_name) };

    fn act(&mut self, act: &Act<A>) -> Answer<A> {
        let answer = self.world.act(act);
        note(self.made, act, &answer);
        answer
    }
}

/// Writes the lines of an act with its answer, where a record is made.
fn note<A: Allocator, S: Sink>(made: &mut Option<S>, act: &Act<A>, answer: &Answer<A>)
    ensures { Notes S.adds S.has_failed made.old (deed_of act.now) (reply_of answer.now)
        made.new }
{
    match made {
        Some(sink) => write_step(sink, act, answer),
        None => {}
    }
}

/// Writes the first line of a record, where one is to be made.
pub fn begin<S: Sink>(made: &mut Option<S>)
    ensures { Begins S.adds S.has_failed made.old made.new }
{
    match made {
        Some(sink) => write_header(sink),
        None => {}
    }
}

/// Whether a record was to be made, and its sink has failed.
pub fn is_lost<S: Sink>(made: &Option<S>) -> bool
    ensures { result ≡ spec.is_lost S.has_failed made.now }
{
    match made {
        Some(sink) => sink.failed(),
        None => false,
    }
}

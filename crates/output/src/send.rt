//! `send ?-i id? ?--? t` (expect(1), send).

ghost use Rattle.std.specs.Prelude.{IfOk};
ghost use Rattle.state.specs.Prelude.{reply_of, Status, FitsState};
ghost use Rattle.kinds.specs.Answers.{Goes, GoesOn, Talks};
ghost use Rattle.output.specs.Send as definition;
ghost use Rattle.state.specs.declared.state.State.{State as Kept};

use acts::{Act, Answer, Fault, Id, NoMemory, Raise};
use kinds::ids::chosen_id;
use kinds::usage::{Usage, after_pair};
use state::leaf::empty;
use state::{Leaf, State};
use std::alloc::Allocator;
use tcltext::Value;

const USAGE: Usage<'static> = Usage {
    command: b"send",
    flags: &[b"-i", b"--"],
};

/// What waits for the answer to an act.
#[derive(Clone, Copy, Debug, PartialEq, Eq)]
pub enum Waits {
    /// The text is sent to this id, and the command is over.
    Sent(Id),
}

/// Begins to send a text to the id that stands after the flag, or to the id in force.
///
/// # Errors
/// The words are too few or too many, a flag stands among them, or the id is not open; or memory is
/// refused.
pub fn begin<A: Allocator + Copy>(
    alloc: A,
    state: &State<A>,
    args: &[Value<A>],
) -> Result<Leaf<A, Waits>, Raise<A>>
    ensures { (s : Status) → FitsState state.now s →
        Talks definition.next_of (definition.send args.now s) s result state.now }
{
    let (name, words) = after_pair(args, b"-i");
    let text = USAGE.text(alloc, words)?;
    let id = chosen_id(alloc, state, name)?;
    Ok(send_bytes(alloc, id, text)?)
}

/// Continues the command with the answer to the send.
///
/// # Errors
/// The send failed.
pub fn answered<A: Allocator + Copy>(
    state: &State<A>,
    waits: Waits,
    answer: Answer<A>,
) -> Result<Leaf<A, Waits>, Raise<A>>
    ensures { (s : Status) → FitsState state.now s → GoesOn definition.next_of
        (definition.follows waits (reply_of answer)) s result state.now }
{
    let Waits::Sent(id) = waits;
    match answer {
        Answer::Failed(sent) => Err(Raise::Fault(Fault::SendFailed { id, sent })),
        _ => Ok(empty()),
    }
}

/// Sends a text to an id; where there are no bytes, nothing is sent.
fn send_bytes<A: Allocator + Copy>(
    alloc: A,
    id: Id,
    text: &[u8],
) -> Result<Leaf<A, Waits>, NoMemory>
    ensures { (s : Status) (state : Kept A) → FitsState state s →
        IfOk result (λ leaf. Goes definition.next_of (definition.sends text.now id) s leaf state) }
{
    if text.is_empty() {
        return Ok(empty());
    }
    let bytes = Vec::from_slice(alloc, text)?;
    Ok(Leaf::Asks(Act::Send(id, bytes), Waits::Sent(id)))
}

//! The channels that texts are written to.

ghost use Rattle.std.specs.Prelude.{◌≡◌, ℕ};
ghost use Rattle.state.specs.Prelude.{deed_of, reply_of, Status, FitsState};
ghost use Rattle.kinds.specs.Answers.{Goes, GoesOn};
ghost use Rattle.state.specs.declared.state.State.{State as Kept};
ghost use Rattle.output.specs.Channel as definition;

use acts::{Act, Answer, Raise};
use state::leaf::{empty, stops};
use state::{Leaf, State, Stop};
use std::alloc::Allocator;

/// The state of a command that waits for the answer to an act.
#[derive(Clone, Copy, Debug, PartialEq, Eq)]
pub enum Waits {
    /// The text is being written; then the command is over.
    Written,
    /// The text is being written to standard output; then it goes to the log where one is open.
    Told,
}

/// Where a text is written.
#[derive(Clone, Copy, Debug, PartialEq, Eq)]
pub enum Channel {
    Output,
    Errors,
    Log,
}

/// Begins to write bytes to a channel; where there are none, nothing is written.
pub fn write<A: Allocator + Copy>(channel: Channel, bytes: Vec<u8, A>) -> Leaf<A, Waits>
    ensures { (n : ℕ) (s : Status) (state : Kept A) → FitsState state s →
        Goes definition.next_of (definition.put {n = n} channel bytes.items) s result state }
{
    if bytes.is_empty() {
        return empty();
    }
    Leaf::Asks(write_to(channel, bytes), Waits::Written)
}

/// Begins to write bytes to the log, where one is open.
pub fn note<A: Allocator + Copy>(state: &State<A>, bytes: Vec<u8, A>) -> Leaf<A, Waits>
    ensures { (n : ℕ) (s : Status) → FitsState state.now s →
        Goes definition.next_of (definition.note {n = n} bytes.items s) s result state.now }
{
    if state.log.logging {
        write(Channel::Log, bytes)
    } else {
        empty()
    }
}

/// Begins to write bytes to standard output, and then to the log where one is open.
pub fn tell<A: Allocator + Copy>(bytes: Vec<u8, A>) -> Leaf<A, Waits>
    ensures { (s : Status) (state : Kept A) → FitsState state s →
        Goes definition.next_of (definition.tell bytes.items) s result state }
{
    if bytes.is_empty() {
        return empty();
    }
    Leaf::Asks(Act::Out(bytes), Waits::Told)
}

/// Continues a command with the answer to its write.
pub fn answered<A: Allocator + Copy>(
    alloc: A,
    state: &State<A>,
    act: Act<A>,
    waits: Waits,
    answer: Answer<A>,
) -> Result<Leaf<A, Waits>, Raise<A>>
    ensures { (s : Status) → FitsState state.now s → GoesOn definition.next_of
        (definition.follows waits (deed_of act) s (reply_of answer)) s result state.now }
{
    match (waits, answer) {
        (_, Answer::Failed(_)) => Ok(stops(Stop::WriterFailed)),
        (Waits::Written, _) => Ok(empty()),
        (Waits::Told, _) => Ok(note(state, bytes_told(alloc, act))),
    }
}

/// The bytes that an act writes to standard output.
fn bytes_told<A: Allocator>(alloc: A, act: Act<A>) -> Vec<u8, A>
    ensures { result.items ≡ definition.bytes_told (deed_of act) }
{
    match act {
        Act::Out(bytes) => bytes,
        _ => Vec::new(alloc),
    }
}

/// The write of bytes to a channel.
fn write_to<A: Allocator>(channel: Channel, bytes: Vec<u8, A>) -> Act<A>
    ensures { deed_of result ≡ definition.write_to channel bytes.items }
{
    match channel {
        Channel::Output => Act::Out(bytes),
        Channel::Errors => Act::Err(bytes),
        Channel::Log => Act::Log(bytes),
    }
}

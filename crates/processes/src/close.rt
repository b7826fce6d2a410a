//! `close ?-i id?`, `close channel` (expect(1), close; close(n)).

ghost use Rattle.std.specs.Prelude.{◌≤◌};
ghost use Rattle.state.specs.Prelude.{Answers, Status, FitsState};
ghost use Rattle.kinds.specs.Answers.{GoesOn, Talks};
ghost use Rattle.processes.specs.Close as definition;

use crate::ids::shut;
use acts::{Act, Id, Raise};
use kinds::ids::{connection_id, current_id, named_id};
use kinds::usage::{Usage, after_pair};
use state::leaf::empty;
use state::{Leaf, State};
use std::alloc::Allocator;
use tcltext::Value;

const USAGE: Usage<'static> = Usage {
    command: b"close",
    flags: &[b"-i"],
};

/// What waits for the answer to an act: once the connection of this id is closed, the id is no
/// longer open, and the command is over.
#[derive(Clone, Copy, Debug, PartialEq, Eq)]
pub struct Waits {
    pub id: Id,
}

/// Begins to close the id in force, the one that stands after the flag, or that of a channel.
///
/// # Errors
/// The words are not those that `close` takes, or the id is not open; or memory is refused.
pub fn begin<A: Allocator + Copy>(
    alloc: A,
    state: &State<A>,
    args: &[Value<A>],
) -> Result<Leaf<A, Waits>, Raise<A>>
    ensures { (s : Status) → FitsState state.now s →
        Talks definition.next_of (definition.close args.now s) s result state.now }
{
    let id = id_said(alloc, state, args)?;
    Ok(Leaf::Asks(Act::Close(id), Waits { id }))
}

/// Continues the command once the connection is closed; there is no error.
pub fn answered<A: Allocator + Copy>(
    state: &mut State<A>,
    waits: Waits,
) -> Result<Leaf<A, Waits>, Raise<A>>
    ensures shows { (s : Status) → FitsState state.old s →
        GoesOn definition.next_of (definition.follows waits) s result state.new }
    ensures left { state.new.left ≤ state.old.left }
{
    shut(state, waits.id);
    Ok(empty())
}

/// The open id that the words are about.
fn id_said<A: Allocator + Copy>(
    alloc: A,
    state: &State<A>,
    args: &[Value<A>],
) -> Result<Id, Raise<A>>
    ensures { (s : Status) → FitsState state.now s →
        Answers (λ id. id) (definition.id_said args.now s) result }
{
    let (name, words) = after_pair(args, b"-i");
    match name {
        Some(name) => by_name(alloc, state, name, words),
        None => by_channel(alloc, state, words),
    }
}

/// The open id of a name, where no word stands after the name.
fn by_name<A: Allocator + Copy>(
    alloc: A,
    state: &State<A>,
    name: &[u8],
    words: &[Value<A>],
) -> Result<Id, Raise<A>>
    ensures { (s : Status) → FitsState state.now s →
        Answers (λ id. id) (definition.by_name name.now words.now s) result }
{
    USAGE.no_more(alloc, words)?;
    named_id(alloc, state, name)
}

/// The open connection of the channel that a word alone is, or else the id in force.
fn by_channel<A: Allocator + Copy>(
    alloc: A,
    state: &State<A>,
    words: &[Value<A>],
) -> Result<Id, Raise<A>>
    ensures { (s : Status) → FitsState state.now s →
        Answers (λ id. id) (definition.by_channel words.now s) result }
{
    match USAGE.at_most_one(alloc, words)? {
        Some(channel) => connection_id(alloc, state, channel),
        None => current_id(alloc, state),
    }
}

//! The open ids that commands are about, and their names as values.

ghost use Rattle.std.specs.Prelude.{◌≡◌, option_copied, IfOk};
ghost use Rattle.acts.specs.Id.{id_text};
ghost use Rattle.state.specs.Prelude.{Answers, Status, FitsState};
ghost use Rattle.kinds.specs.Ids as definition;

use acts::raise::not_open;
use acts::{Fault, Id, NoMemory, Raise};
use itoa::Buffer;
use state::State;
use state::variables::{SPAWN_ID, consulted};
use std::alloc::Allocator;
use tcltext::Value;

/// The open id that a text spells (expect(1), spawn).
///
/// # Errors
/// No id that is open is spelled so; or memory is refused for the error.
pub fn named_id<A: Allocator + Copy>(
    alloc: A,
    state: &State<A>,
    text: &[u8],
) -> Result<Id, Raise<A>>
    ensures { (s : Status) → FitsState state.now s →
        Answers (λ id. id) (definition.named_id text.now s) result }
{
    match state.ids.table.named(text) {
        Some(id) => Ok(id),
        None => Err(not_open(alloc, text)),
    }
}

/// The id in force: the one that the variable `spawn_id` names (expect(1), spawn).
///
/// # Errors
/// The variable is not set, or names no id that is open; or memory is refused for the error.
pub fn current_id<A: Allocator + Copy>(alloc: A, state: &State<A>) -> Result<Id, Raise<A>>
    ensures { (s : Status) → FitsState state.now s →
        Answers (λ id. id) (definition.current_id s) result }
{
    match consulted(state, SPAWN_ID) {
        Some(text) => named_id(alloc, state, text.as_slice()),
        None => Err(Raise::Fault(Fault::NotOpen(None))),
    }
}

/// The open id of a name, or else the one in force (expect(1), spawn).
///
/// # Errors
/// The id is not open; or memory is refused for the error.
pub fn chosen_id<A: Allocator + Copy>(
    alloc: A,
    state: &State<A>,
    name: Option<&[u8]>,
) -> Result<Id, Raise<A>>
    ensures { (s : Status) → FitsState state.now s →
        Answers (λ id. id) (definition.chosen_id (option_copied name.entry) s) result }
{
    match name {
        Some(name) => named_id(alloc, state, name),
        None => current_id(alloc, state),
    }
}

/// The open connection whose channel a text spells (close(n)).
///
/// # Errors
/// No channel that is open is spelled so; or memory is refused for the error.
pub fn connection_id<A: Allocator + Copy>(
    alloc: A,
    state: &State<A>,
    text: &[u8],
) -> Result<Id, Raise<A>>
    ensures { (s : Status) → FitsState state.now s →
        Answers (λ id. id) (definition.connection_id text.now s) result }
{
    match state.ids.table.connection(text) {
        Some(id) => Ok(id),
        None => Err(Raise::Fault(Fault::NoChannel(Vec::from_slice(alloc, text)?))),
    }
}

/// The name of an id (expect(1), spawn). Each is short enough to lie in place, without memory.
///
/// # Errors
/// `NoMemory` where memory is refused.
pub fn name_of<A: Allocator + Copy>(alloc: A, id: Id) -> Result<Value<A>, NoMemory>
    ensures { IfOk result (λ name. name ≡ id_text id.0) }
{
    match Value::joined_in_place(b"exp", Buffer::new().format(id.0).as_bytes()) {
        Some(name) => Ok(name),
        None => Value::new(alloc, id.text(alloc)?),
    }
}

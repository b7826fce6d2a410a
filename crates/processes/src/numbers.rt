//! The numbers of ids.

ghost use Rattle.std.specs.Prelude.{◌≡◌};
ghost use Rattle.state.specs.Prelude.{Answers, Status, FitsState};
ghost use Rattle.choices.specs.Views.{kind_of};
ghost use Rattle.kinds.specs.Edits.{Skips, edited};
ghost use Rattle.processes.specs.Numbers as definition;

use acts::{Fault, Id, Raise};
use dialog::{Kind, OpenError};
use state::State;
use std::alloc::Allocator;

/// The id of the next number, under which an act is made: the answer to the act uses the number up.
///
/// # Errors
/// Too many ids are open, or no number is left.
pub(crate) fn next_id<A: Allocator + Copy>(state: &State<A>) -> Result<Id, Raise<A>>
    ensures { (s : Status) → FitsState state.now s →
        Answers (λ id. id) (definition.next_id s) result }
{
    match state.ids.next() {
        Some(id) => Ok(id),
        None => Err(Raise::Fault(Fault::TooManyIds)),
    }
}

/// Opens the id of the next number.
///
/// # Errors
/// Too many ids are open, or no number is left, and nothing changes; or memory is refused.
pub(crate) fn open_next<A: Allocator + Copy>(
    alloc: A,
    state: &mut State<A>,
    kind: Kind,
) -> Result<Id, Raise<A>>
    ensures opens { (s : Status) → FitsState state.old s →
        definition.Opens (kind_of kind) s result state.new }
    ensures left { state.new.left ≡ state.old.left }
{
    match state.ids.open(alloc, kind) {
        Ok(id) => Ok(id),
        Err(OpenError::TooMany) => Err(Raise::Fault(Fault::TooManyIds)),
        Err(OpenError::NoMemory(refusal)) => Err(Raise::NoMemory(refusal)),
    }
}

/// Uses up the next number, which then names no id.
pub(crate) fn skip_next<A: Allocator + Copy>(state: &mut State<A>)
    ensures skips { (s : Status) → FitsState state.old s →
        FitsState state.new (edited Skips s) }
    ensures left { state.new.left ≡ state.old.left }
{
    state.ids.skip();
}

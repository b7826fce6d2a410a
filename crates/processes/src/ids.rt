//! Changes of what the state keeps about ids.

ghost use Rattle.std.specs.Prelude.{◌≡◌, ◌==◌, not, OnErr, OnOk, filter};
ghost use Rattle.state.specs.Prelude.{Status, FitsState};
ghost use Rattle.kinds.specs.Edits.{DropsNulls, DropsNullsLater, Reaps, Shuts, Sizes, SizesLater, edited};

use acts::{Id, NoMemory};
use matchbuf::MatchBufError;
use state::{Size, State, Unreaped};
use std::alloc::Allocator;

/// Sets the size of the buffer of an id, if it is open (expect(1), match_max). On `Err` nothing
/// changes.
///
/// # Errors
/// Memory is refused.
pub(crate) fn resize<A: Allocator + Copy>(
    state: &mut State<A>,
    id: Id,
    size: Size,
) -> Result<(), NoMemory>
    ensures sizes { (s : Status) → FitsState state.old s →
        OnOk result (FitsState state.new (edited (Sizes id size.bytes) s)) }
    ensures unchanged { OnErr result (state.new ≡ state.old) }
    ensures left { state.new.left ≡ state.old.left }
{
    if !state.ids.table.is_open(id) {
        return Ok(());
    }
    match state.ids.table.set_max(id, size.bytes) {
        Ok(()) => Ok(()),
        Err(MatchBufError::NoMemory(refusal)) => Err(refusal),
        Err(MatchBufError::Size) => unreachable!(),
    }
}

/// Sets the size of the buffers of later ids (expect(1), match_max -d).
pub(crate) fn resize_later<A: Allocator>(state: &mut State<A>, size: Size)
    ensures sizes { (s : Status) → FitsState state.old s →
        FitsState state.new (edited (SizesLater size.bytes) s) }
    ensures left { state.new.left ≡ state.old.left }
{
    state.ids.size = size;
}

/// Sets whether nulls are removed from what arrives at an id, if it is open (expect(1),
/// remove_nulls).
pub(crate) fn reset<A: Allocator>(state: &mut State<A>, id: Id, drops: bool)
    ensures drops { (s : Status) → FitsState state.old s →
        FitsState state.new (edited (DropsNulls id drops) s) }
    ensures left { state.new.left ≡ state.old.left }
{
    state.ids.table.set_nulls(id, drops);
}

/// Sets whether nulls are removed from what arrives at later ids (expect(1), remove_nulls -d).
pub(crate) fn reset_later<A: Allocator>(state: &mut State<A>, drops: bool)
    ensures drops { (s : Status) → FitsState state.old s →
        FitsState state.new (edited (DropsNullsLater drops) s) }
    ensures left { state.new.left ≡ state.old.left }
{
    state.ids.drops_nulls = drops;
}

/// Closes an id, if it is open, and takes its standing pairs away (expect(1), close).
pub(crate) fn shut<A: Allocator + Copy>(state: &mut State<A>, id: Id)
    ensures shuts { (s : Status) → FitsState state.old s →
        FitsState state.new (edited (Shuts id) s) }
    ensures left { state.new.left ≡ state.old.left }
{
    state.ids.close(id);
}

/// Notes that an id, open or closed, was waited for (expect(1), wait).
pub(crate) fn reap<A: Allocator>(state: &mut State<A>, id: Id)
    ensures reaps { (s : Status) → FitsState state.old s →
        FitsState state.new (edited (Reaps id) s) }
    ensures left { state.new.left ≡ state.old.left }
{
    remove_unreaped(&mut state.ids.unreaped, id);
}

/// Removes an id from those that may be waited for.
fn remove_unreaped<A: Allocator>(unreaped: &mut Vec<Unreaped, A>, id: Id)
    ensures { unreaped.new.items ≡ filter (λ u. not (u.id.0 == id.0)) unreaped.old.items }
{
    unreaped.retain(|other| other.id != id);
}

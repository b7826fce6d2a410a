//! Which acts an entry of a record answers.

ghost use Rattle.std.specs.Prelude.{◌≡◌, ◌↔◌, Some, IsTrue};
ghost use Rattle.std.specs.Option.{option_map};
ghost use Rattle.acts.specs.Deed.{deed_of};
ghost use Rattle.replays.specs.Due.{IsDue};

use acts::{Act, Row};
use std::alloc::Allocator;

/// Whether an entry with these rows answers an act.
pub fn is_due<A: Allocator>(told: &Option<Vec<Row, A>>, act: &Act<A>) -> bool
    ensures { IsTrue result ↔ IsDue (option_map (λ rows. rows.items) told.now) (deed_of act.now) }
{
    match told {
        None => true,
        Some(told) => is_wait_for(told, act),
    }
}

/// Whether an act is a wait for these rows.
fn is_wait_for<A: Allocator>(told: &[Row], act: &Act<A>) -> bool
    ensures { IsTrue result ↔ IsDue (Some told.now) (deed_of act.now) }
{
    match act {
        Act::Wait { rows, .. } => are_same(told, rows),
        _ => false,
    }
}

/// Whether rows are the same.
fn are_same(some: &[Row], others: &[Row]) -> bool
    ensures { IsTrue result ↔ (some.now ≡ others.now) }
{
    some == others
}

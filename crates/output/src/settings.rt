//! Changes of the settings that say what is written where.

ghost use Rattle.std.specs.Prelude.{◌≡◌};
ghost use Rattle.state.specs.Prelude.{Status, FitsState};
ghost use Rattle.kinds.specs.Edits.{ShowsArrivals, EndsLog, OpensLog, edited, opened_by};

use state::State;
use std::alloc::Allocator;

/// Sets whether what arrives is shown (expect(1), log_user).
pub(crate) fn show_arrivals<A: Allocator>(state: &mut State<A>, shows: bool)
    ensures fits { (s : Status) → FitsState state.old s →
        FitsState state.new (edited (ShowsArrivals shows) s) }
    ensures left { state.new.left ≡ state.old.left }
{
    state.log.user = shows;
}

/// Records that no log is open (expect(1), log_file).
pub(crate) fn end_log<A: Allocator>(state: &mut State<A>)
    ensures fits { (s : Status) → FitsState state.old s →
        FitsState state.new (edited EndsLog s) }
    ensures left { state.new.left ≡ state.old.left }
{
    state.log.logging = false;
}

/// Records that a log is open, and whether it gets all or only what is shown (expect(1), log_file).
pub(crate) fn start_log<A: Allocator>(state: &mut State<A>, all: bool)
    ensures fits { (s : Status) → FitsState state.old s →
        FitsState state.new (opened_by (OpensLog all) s) }
    ensures left { state.new.left ≡ state.old.left }
{
    state.log.logging = true;
    state.log.all = all;
}

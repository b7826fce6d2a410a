//! What holds of recorded runs that are replayed.

ghost use Rattle.std.specs.Prelude.{ℕ, List};
ghost use Rattle.worlds.specs.Laws.{AreReplayed};

use acts::World;
use records::Sink;
use std::alloc::Allocator;

/// A run in a recorder whose sink has not failed leaves its record there, and nothing else; read
/// and replayed with the same script, arguments and limit, it gives the same acts and answers and
/// the same end, and no wait differs.
pub fn recorded_runs_are_replayed<A: Allocator, W: World<A>, S: Sink, O: Sink, E: Sink>()
    ensures { (script : List ℕ) (args : List (List ℕ)) (ticks : ℕ)
        → AreReplayed W.step S.adds S.has_failed O.adds O.has_failed E.adds E.has_failed
        script args ticks }
{}

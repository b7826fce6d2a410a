//! What holds of every turn of `expect`.

ghost use Rattle.std.specs.Prelude.{ℕ, ◌+◌, ◌*◌};
ghost use Rattle.state.specs.Prelude.{worth, TurnTree, Status};
ghost use Rattle.expects.specs.Turn as definition;
ghost use Rattle.state.specs.Proceeds.{Proceeds};

/// A turn leaves no more ticks than there were, each script and turn after it has a smaller budget
/// than the turn itself, the acts of the turn are paid for by its ticks, and each of its waits
/// reports buffers that hold at most their size.
#[tactic(auto, using(crate::proofs::Proceeding::turns_proceed))]
pub fn turns_proceed()
    ensures { (turn : TurnTree) (levels : ℕ) (s : Status) →
        Proceeds (2 * s.left + 1) (worth s) (definition.turns turn levels s) }
{}

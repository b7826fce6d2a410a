//! What holds of each command, for the laws of all runs.

ghost use Rattle.std.specs.Prelude.{ℕ, ◌+◌, List};
ghost use Rattle.commands.specs.Commands.{command};
ghost use Rattle.state.specs.Prelude.{Behaves, worth, Status};

/// Each command runs no script, uses up no more ticks than are left, pays for its acts out of four
/// and of what its state is worth, and waits for what holds.
#[tactic(auto, using(crate::proofs::Behaves::command_behaves))]
pub fn commands_behave()
    ensures { (s : Status) (words : List (List ℕ)) →
        Behaves s.left (worth s + 4) (command s words) }
{}

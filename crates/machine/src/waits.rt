//! What waits for the answer to an act.

ghost use Rattle.std.specs.Prelude.{◌≡◌};
ghost use Rattle.state.specs.Prelude.{Status};
ghost use Rattle.commands.specs.View as table;
ghost use Rattle.machine.specs.Waiting.{again_in, next_of};
ghost use Rattle.state.specs.Leaf.{course_of};

use state::Leaf;
use std::alloc::Allocator;

/// What waits for the answer to an act: a command that runs no script, or a turn of `expect`.
#[derive(Drop)]
pub enum Waits<A: Allocator> {
    Command(commands::Waits<A>),
    Turn(expects::turn::Waits<A>),
}

/// How far a command that runs no script has come, with what it waits for as one of `Waits`.
#[inline(always)]
pub fn plainly<A: Allocator>(leaf: Leaf<A, commands::Waits<A>>) -> Leaf<A, Waits<A>>
    ensures course { (s : Status) → course_of next_of result s ≡ course_of table.next_of leaf s }
    ensures again { again_in result ≡ again_in leaf }
{
    match leaf {
        Leaf::Has(outcome) => Leaf::Has(outcome),
        Leaf::Asks(act, waits) => Leaf::Asks(act, Waits::Command(waits)),
    }
}

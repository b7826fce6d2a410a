//! What a command, or a call of a procedure, holds while a script or a formula runs within it.

ghost use Rattle.std.specs.Prelude.{ℕ};
ghost use Rattle.nesting.specs.Calls as calling;
ghost use Rattle.nesting.specs.Expr as formulas;
ghost use Rattle.nesting.specs.Looping as loops;
ghost use Rattle.nesting.specs.Nesting.{TicksFirst};
ghost use Rattle.nesting.specs.View.{IsLifted};

use crate::{Nesting, calls, expr, foreach};
use std::alloc::Allocator;

/// What is held while a script or a formula runs within a call of a procedure, `expr` or `foreach`.
#[derive(Drop)]
pub enum Held<A: Allocator> {
    Call(calls::Held),
    Expr(expr::Held),
    Foreach(foreach::Held<A>),
}

/// How far a call has come, with what it holds as one of `Held`.
pub(crate) fn from_call<A: Allocator>(nesting: Nesting<A, calls::Held>) -> Nesting<A, Held<A>>
    ensures lifted { IsLifted calling.next_of nesting result }
    ensures ticks { (new old : ℕ) → TicksFirst nesting new old → TicksFirst result new old }
{
    match nesting {
        Nesting::Has(outcome) => Nesting::Has(outcome),
        Nesting::Runs(it, levels, held) => Nesting::Runs(it, levels, Held::Call(held)),
    }
}

/// How far `expr` has come, with what it holds as one of `Held`.
pub(crate) fn from_expr<A: Allocator>(nesting: Nesting<A, expr::Held>) -> Nesting<A, Held<A>>
    ensures lifted { IsLifted formulas.next_of nesting result }
    ensures ticks { (new old : ℕ) → TicksFirst nesting new old → TicksFirst result new old }
{
    match nesting {
        Nesting::Has(outcome) => Nesting::Has(outcome),
        Nesting::Runs(it, levels, held) => Nesting::Runs(it, levels, Held::Expr(held)),
    }
}

/// How far `foreach` has come, with what it holds as one of `Held`.
pub(crate) fn from_foreach<A: Allocator>(
    nesting: Nesting<A, foreach::Held<A>>,
) -> Nesting<A, Held<A>>
    ensures lifted { IsLifted loops.next_of nesting result }
    ensures ticks { (new old : ℕ) → TicksFirst nesting new old → TicksFirst result new old }
{
    match nesting {
        Nesting::Has(outcome) => Nesting::Has(outcome),
        Nesting::Runs(it, levels, held) => Nesting::Runs(it, levels, Held::Foreach(held)),
    }
}

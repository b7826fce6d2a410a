//! The functions of formulas.

ghost use Rattle.std.specs.Prelude.{◌≡◌, ◌∷◌};
ghost use Rattle.meanings.specs.View.{Answers};
ghost use Rattle.operators.specs.Function as meant;
ghost use Rattle.operators.specs.Number.{with_all};

use crate::numbers::{number, told};
use crate::operand::Operand;
use acts::{Fault, Raise};
use std::alloc::Allocator;
use tclparse::Function;

/// Which of several numbers is the result.
#[derive(Clone, Copy)]
pub enum Extreme {
    Least,
    Greatest,
}

/// Applies a function to its operands (mathfunc(n)).
///
/// # Errors
/// The script's error: the first operand that is not a number; a result outside of 64 bits; a wrong
/// number of operands, which no formula that was read has. `NoMemory` where memory is refused.
pub fn call<A: Allocator + Copy>(
    alloc: A,
    function: Function,
    operands: &[Operand<A>],
) -> Result<Operand<A>, Raise<A>>
    ensures { Answers (meant.call function operands.now) result }
{
    match (function, operands) {
        (Function::Abs, [operand]) => absolute(alloc, operand),
        (Function::Min, [first, rest @ ..]) => among(alloc, Extreme::Least, first, rest),
        (Function::Max, [first, rest @ ..]) => among(alloc, Extreme::Greatest, first, rest),
        _ => Err(Raise::Fault(Fault::BadExpression)),
    }
}

/// The absolute value of the number that an operand is (mathfunc(n), abs).
fn absolute<A: Allocator + Copy>(alloc: A, operand: &Operand<A>) -> Result<Operand<A>, Raise<A>>
    ensures { Answers (meant.absolute operand.now) result }
{
    let n = number(alloc, operand)?;
    told(n.checked_abs())
}

/// The least or greatest of the numbers that operands are (mathfunc(n), min, max).
fn among<A: Allocator + Copy>(
    alloc: A,
    which: Extreme,
    first: &Operand<A>,
    rest: &[Operand<A>],
) -> Result<Operand<A>, Raise<A>>
    ensures { Answers (with_all (first.now ∷ rest.now) (meant.among which)) result }
{
    let mut best = number(alloc, first)?;
    for operand in rest {
        best = chosen(which, best, number(alloc, operand)?);
    }
    told(Some(best))
}

/// The lesser or the greater of two numbers.
fn chosen(which: Extreme, x: i64, y: i64) -> i64
    ensures { result ≡ meant.chosen which x y }
{
    match which {
        Extreme::Least => x.min(y),
        Extreme::Greatest => x.max(y),
    }
}

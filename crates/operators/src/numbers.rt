//! Operands that must be numbers, and numbers as results.

ghost use Rattle.std.specs.Prelude.{◌≡◌, ℤ, Some, IfOk, IfErr, SomeIff, FitsSigned};
ghost use Rattle.std.specs.Int.{w64};
ghost use Rattle.meanings.specs.View.{Answers};
ghost use Rattle.operators.specs.Number as meant;
ghost use Rattle.operators.specs.View.{IsNoNumber, AreNumbers, AreNoNumbers};

use crate::operand::Operand;
use acts::{Fault, Raise};
use itoa::Buffer;
use std::alloc::Allocator;

/// The number that an operand is (expr(n), operators).
pub fn number<A: Allocator + Copy>(alloc: A, operand: &Operand<A>) -> Result<i64, Raise<A>>
    ensures ok { IfOk result (λ n. meant.number_of operand.now ≡ Some n) }
    ensures fault { IfErr result (IsNoNumber operand.now) }
{
    if let Some(n) = operand.number_of() {
        return Ok(n);
    }
    let mut buffer = Buffer::new();
    let text = Vec::from_slice(alloc, operand.bytes(&mut buffer))?;
    Err(Raise::Fault(Fault::NotANumber(text)))
}

/// The numbers that two operands are; the left one is read first (expr(n), operators).
pub fn numbers<A: Allocator + Copy>(
    alloc: A,
    left: &Operand<A>,
    right: &Operand<A>,
) -> Result<(i64, i64), Raise<A>>
    ensures ok { IfOk result (AreNumbers left.now right.now) }
    ensures fault { IfErr result (AreNoNumbers left.now right.now) }
{
    let x = number(alloc, left)?;
    let y = number(alloc, right)?;
    Ok((x, y))
}

/// A number as a result; `None`, a number that 64 bits do not hold, is the error (expr(n)).
pub fn told<A: Allocator>(number: Option<i64>) -> Result<Operand<A>, Raise<A>>
    ensures { (n : ℤ) → SomeIff number (FitsSigned w64 n) n → Answers (meant.told n) result }
{
    match number {
        Some(n) => Ok(Operand::number(n)),
        None => Err(Raise::Fault(Fault::OutOfRange)),
    }
}

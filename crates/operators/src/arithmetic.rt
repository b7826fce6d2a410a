//! The operators that need two numbers.

ghost use Rattle.meanings.specs.View.{Answers};
ghost use Rattle.operators.specs.Arithmetic as meant;
ghost use Rattle.operators.specs.Number.{with_both};

use crate::division::{divide, modulo};
use crate::numbers::{numbers, told};
use crate::operand::Operand;
use crate::shifts::{shift_left, shift_right};
use acts::Raise;
use std::alloc::Allocator;

/// An operator that needs two numbers (expr(n), operators).
#[derive(Clone, Copy)]
pub enum Arithmetic {
    Multiply,
    Divide,
    Remainder,
    Add,
    Subtract,
    ShiftLeft,
    ShiftRight,
    And,
    Xor,
    Or,
}

/// Applies an operation to two operands, which must be numbers (expr(n), operators).
pub fn on_numbers<A: Allocator + Copy>(
    alloc: A,
    operation: Arithmetic,
    left: &Operand<A>,
    right: &Operand<A>,
) -> Result<Operand<A>, Raise<A>>
    ensures { Answers (with_both left.now right.now (meant.computed operation)) result }
{
    let (x, y) = numbers(alloc, left, right)?;
    computed(operation, x, y)
}

/// Applies an operation to two numbers (expr(n), operators).
fn computed<A: Allocator>(operation: Arithmetic, x: i64, y: i64) -> Result<Operand<A>, Raise<A>>
    ensures { Answers (meant.computed operation x y) result }
{
    match operation {
        Arithmetic::Multiply => told(x.checked_mul(y)),
        Arithmetic::Divide => divide(x, y),
        Arithmetic::Remainder => modulo(x, y),
        Arithmetic::Add => told(x.checked_add(y)),
        Arithmetic::Subtract => told(x.checked_sub(y)),
        Arithmetic::ShiftLeft => shift_left(x, y),
        Arithmetic::ShiftRight => shift_right(x, y),
        Arithmetic::And => told(Some(x & y)),
        Arithmetic::Xor => told(Some(x ^ y)),
        Arithmetic::Or => told(Some(x | y)),
    }
}

//! The operators of formulas by their names.

ghost use Rattle.meanings.specs.View.{Answers};
ghost use Rattle.operators.specs.Binary.{binary};
ghost use Rattle.operators.specs.Unary.{unary};

use crate::arithmetic::{Arithmetic, on_numbers};
use crate::members::{is_in, is_not_in};
use crate::numbers::{number, told};
use crate::operand::Operand;
use crate::ordering::{order, same_bytes};
use crate::truths::truth;
use acts::Raise;
use std::alloc::Allocator;
use tclparse::{Binary, Unary};

/// Applies an operator to its operand (expr(n), operators).
///
/// # Errors
/// The script's error: an operand that is not a number, or for `!` not a truth value; a result
/// outside of 64 bits. `NoMemory` where memory is refused.
pub fn unary<A: Allocator + Copy>(
    alloc: A,
    operator: Unary,
    operand: &Operand<A>,
) -> Result<Operand<A>, Raise<A>>
    ensures { Answers (unary operator operand.now) result }
{
    match operator {
        Unary::Negate => told(number(alloc, operand)?.checked_neg()),
        Unary::Plus => told(Some(number(alloc, operand)?)),
        Unary::Complement => told(Some(!number(alloc, operand)?)),
        Unary::Not => Ok(Operand::truth(!truth(alloc, operand)?)),
    }
}

/// Applies an operator to its two operands (expr(n), operators).
///
/// # Errors
/// The script's error, the first one where there are several: an operand that is not a number, the
/// left one first, where numbers are needed, or a right one that is not a list for `in` and `ni`; a
/// divisor that is 0; a negative count of a shift; a result outside of 64 bits. `NoMemory` where
/// memory is refused.
pub fn binary<A: Allocator + Copy>(
    alloc: A,
    operator: Binary,
    left: &Operand<A>,
    right: &Operand<A>,
) -> Result<Operand<A>, Raise<A>>
    ensures { Answers (binary operator left.now right.now) result }
{
    match operator {
        Binary::Multiply => on_numbers(alloc, Arithmetic::Multiply, left, right),
        Binary::Divide => on_numbers(alloc, Arithmetic::Divide, left, right),
        Binary::Remainder => on_numbers(alloc, Arithmetic::Remainder, left, right),
        Binary::Add => on_numbers(alloc, Arithmetic::Add, left, right),
        Binary::Subtract => on_numbers(alloc, Arithmetic::Subtract, left, right),
        Binary::ShiftLeft => on_numbers(alloc, Arithmetic::ShiftLeft, left, right),
        Binary::ShiftRight => on_numbers(alloc, Arithmetic::ShiftRight, left, right),
        Binary::And => on_numbers(alloc, Arithmetic::And, left, right),
        Binary::Xor => on_numbers(alloc, Arithmetic::Xor, left, right),
        Binary::Or => on_numbers(alloc, Arithmetic::Or, left, right),
        Binary::Less => Ok(Operand::truth(order(left, right).is_lt())),
        Binary::Greater => Ok(Operand::truth(order(left, right).is_gt())),
        Binary::LessEqual => Ok(Operand::truth(order(left, right).is_le())),
        Binary::GreaterEqual => Ok(Operand::truth(order(left, right).is_ge())),
        Binary::Equal => Ok(Operand::truth(order(left, right).is_eq())),
        Binary::NotEqual => Ok(Operand::truth(order(left, right).is_ne())),
        Binary::TextEqual => Ok(Operand::truth(same_bytes(left, right))),
        Binary::TextNotEqual => Ok(Operand::truth(!same_bytes(left, right))),
        Binary::In => is_in(alloc, left, right),
        Binary::NotIn => is_not_in(alloc, left, right),
    }
}

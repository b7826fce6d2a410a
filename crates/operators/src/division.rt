//! The operators that divide.

ghost use Rattle.meanings.specs.View.{Answers};
ghost use Rattle.operators.specs.Division as meant;

use crate::numbers::told;
use crate::operand::Operand;
use acts::{Fault, Raise};
use integers::division::{quotient, remainder};
use std::alloc::Allocator;

/// `a / b` (expr(n), operators).
pub fn divide<A: Allocator>(a: i64, b: i64) -> Result<Operand<A>, Raise<A>>
    ensures { Answers (meant.divide a b) result }
{
    if b == 0 {
        return Err(Raise::Fault(Fault::DivideByZero));
    }
    told(quotient(a, b))
}

/// `a % b` (expr(n), operators).
pub fn modulo<A: Allocator>(a: i64, b: i64) -> Result<Operand<A>, Raise<A>>
    ensures { Answers (meant.modulo a b) result }
{
    if b == 0 {
        return Err(Raise::Fault(Fault::DivideByZero));
    }
    told(remainder(a, b))
}

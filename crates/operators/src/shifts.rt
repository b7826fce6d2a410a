//! The operators that shift, by any count.

ghost use Rattle.meanings.specs.View.{Answers};
ghost use Rattle.operators.specs.Shift as meant;

use crate::numbers::told;
use crate::operand::Operand;
use acts::{Fault, Raise};
use integers::shifts::{over_power, times_power};
use std::alloc::Allocator;

/// `a << n` (expr(n), operators).
pub fn shift_left<A: Allocator>(a: i64, count: i64) -> Result<Operand<A>, Raise<A>>
    ensures { Answers (meant.shift_left a count) result }
{
    match u64::try_from(count) {
        Ok(n) => told(times_power(a, n)),
        Err(_) => Err(Raise::Fault(Fault::NegativeShift)),
    }
}

/// `a >> n` (expr(n), operators).
pub fn shift_right<A: Allocator>(a: i64, count: i64) -> Result<Operand<A>, Raise<A>>
    ensures { Answers (meant.shift_right a count) result }
{
    match u64::try_from(count) {
        Ok(n) => told(Some(over_power(a, n))),
        Err(_) => Err(Raise::Fault(Fault::NegativeShift)),
    }
}

//! The numerals that a formula writes, and the value that it gives.

ghost use Rattle.std.specs.Prelude.{◌≡◌, IfOk};
ghost use Rattle.meanings.specs.View.{Answers};
ghost use Rattle.operators.specs.Value as meant;

use crate::operand::{Operand, number_in};
use acts::{Fault, Raise};
use memory::NoMemory;
use std::alloc::Allocator;
use tcltext::Value;

/// A numeral that a formula writes: it keeps its spelling (expr(n), operands).
///
/// # Errors
/// Where its number is not within 64 bits.
pub fn written<A: Allocator>(spelling: Value<A>) -> Result<Operand<A>, Raise<A>>
    ensures { Answers (meant.written spelling) result }
{
    if number_in(&spelling).is_none() {
        return Err(Raise::Fault(Fault::OutOfRange));
    }
    Ok(Operand::text(spelling))
}

/// A formula's value as text: a number in decimal, all else as it stands (expr(n)).
///
/// # Errors
/// Where memory is refused.
pub fn result<A: Allocator + Copy>(alloc: A, value: Operand<A>) -> Result<Value<A>, NoMemory>
    ensures { IfOk result (λ text. text ≡ meant.result value) }
{
    value.into_value(alloc)
}

//! Operands that must be truth values.

ghost use Rattle.std.specs.Prelude.{◌≡◌, Ok, IfOk, IfErr};
ghost use Rattle.std.specs.Result.{result_ok};
ghost use Rattle.operators.specs.Truth as meant;
ghost use Rattle.operators.specs.View.{IsNoTruth};

use crate::operand::Operand;
use acts::{Fault, Raise};
use itoa::Buffer;
use std::alloc::Allocator;

/// Whether an operand is true: a number that is not 0, or one of the words `true`, `yes` and `on`;
/// `false`, `no` and `off` are false (expr(n), operands).
///
/// # Errors
/// Where it is neither a number nor one of the six words. `NoMemory` where memory is refused.
pub fn truth<A: Allocator + Copy>(alloc: A, operand: &Operand<A>) -> Result<bool, Raise<A>>
    ensures ok { IfOk result (λ holds. meant.truth_of operand.now ≡ Ok holds) }
    ensures fault { IfErr result (IsNoTruth operand.now) }
{
    if let Some(n) = operand.number_of() {
        return Ok(n != 0);
    }
    let mut buffer = Buffer::new();
    let text = operand.bytes(&mut buffer);
    match of_word(text) {
        Some(holds) => Ok(holds),
        None => Err(Raise::Fault(Fault::NotATruth(Vec::from_slice(alloc, text)?))),
    }
}

/// The truth value of a word, if it has one (expr(n), operands).
fn of_word(word: &[u8]) -> Option<bool>
    ensures { result ≡ result_ok (meant.of_word word.now) }
{
    match word {
        b"true" | b"yes" | b"on" => Some(true),
        b"false" | b"no" | b"off" => Some(false),
        _ => None,
    }
}

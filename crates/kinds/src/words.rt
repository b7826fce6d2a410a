//! What commands ask about their words: which number a word is.

ghost use Rattle.acts.specs.Raise.{Answers};
ghost use Rattle.kinds.specs.Words as definition;

use acts::Raise;
use acts::raise::not_a_number;
use state::arguments::{whole_number, whole_number_in};
use std::alloc::Allocator;
use tcltext::Value;

/// The whole number within 64 bits that a word is (expr(n), operands).
///
/// # Errors
/// The word is no such number; or memory is refused for the error.
pub fn number_of<A: Allocator + Copy>(alloc: A, word: &[u8]) -> Result<i64, Raise<A>>
    ensures { Answers (λ n. n) (definition.number word.now) result }
{
    match whole_number(word) {
        Some(number) => Ok(number),
        None => Err(not_a_number(alloc, word)),
    }
}

/// The whole number within 64 bits that a value is; most values that are numbers keep theirs
/// (expr(n), operands).
///
/// # Errors
/// The value is no such number; or memory is refused for the error.
pub fn number_in<A: Allocator + Copy>(alloc: A, value: &Value<A>) -> Result<i64, Raise<A>>
    ensures { Answers (λ n. n) (definition.number value.now) result }
{
    match whole_number_in(value) {
        Some(number) => Ok(number),
        None => Err(not_a_number(alloc, value.as_slice())),
    }
}

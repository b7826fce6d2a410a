//! Values that are numbers: made and read.

ghost use Rattle.std.specs.Prelude.{◌≡◌, ◌<◌, ◌+◌, ◌^◌, ℤ, length, IfOk, IfSome, IfNone, IsSome, MatchOption};
ghost use Rattle.std.specs.Fmt.{signed_decimal};
ghost use Rattle.std.specs.Int.Signed.{mag};
ghost use Rattle.tcltext.specs.Numeral.{IsNumeral, IsInRange};

use crate::number::read_int;
use crate::value::Value;
use itoa::Buffer;
use memory::NoMemory;
use std::alloc::Allocator;

impl<A: Allocator> Value<A> {
    /// The text of a whole number in decimal, where it is short enough to lie in place, that is,
    /// inside the value itself. Takes no memory.
    pub fn int_in_place(n: i64) -> Option<Value<A>>
        ensures text { IfSome result (λ value. value ≡ signed_decimal n) }
        ensures room { IfNone result (14 < length (signed_decimal n)) }
        ensures small { mag n + 1 < 10 ^ 13 → IsSome result }
    {
        let mut buffer = Buffer::new();
        let text = buffer.format(n).as_bytes();
        match Value::with_number(text, n) {
            Some(value) => Some(value),
            None => Value::in_place(text),
        }
    }

    /// The text of a number of one digit together with that number; `None` where it is another.
    fn digit(n: i64) -> Option<Value<A>>
        ensures { IfSome result (λ value. value ≡ signed_decimal n) }
    {
        let Ok(digit) = u8::try_from(n) else {
            return None;
        };
        if digit > 9 {
            return None;
        }
        Value::with_number(&[b'0' + digit], n)
    }

    /// A value of this text together with its number. `None` where the text is no number, or where
    /// the two are too large to lie in place.
    pub fn read_number(text: &[u8]) -> Option<Value<A>>
        ensures { IfSome result (λ value. value ≡ text.now) }
    {
        let n = read_int(text)?;
        Value::with_number(text, n)
    }

    /// The whole number that the text is, as [`read_int`] reads it. Takes no memory.
    pub fn number(&self) -> Option<i64>
        ensures value { MatchOption result
            ((n : ℤ) → IsNumeral n self.now → IsInRange n → ⊥)
            (λ n. IsNumeral n self.now) }
        ensures in_range { IfSome result IsInRange }
    {
        match self.kept_number() {
            Some(n) => Some(n),
            None => read_int(self.as_slice()),
        }
    }
}

impl<A: Allocator + Copy> Value<A> {
    /// The text of a whole number in decimal.
    pub fn int(alloc: A, n: i64) -> Result<Value<A>, NoMemory>
        ensures { IfOk result (λ value. value ≡ signed_decimal n) }
    {
        if let Some(value) = Value::digit(n) {
            return Ok(value);
        }
        if let Some(value) = Value::int_in_place(n) {
            return Ok(value);
        }
        let mut buffer = Buffer::new();
        Value::from_slice(alloc, buffer.format(n).as_bytes())
    }

    /// A copy of these bytes, together with their number where they are a small number.
    pub fn word(alloc: A, bytes: &[u8]) -> Result<Value<A>, NoMemory>
        ensures { IfOk result (λ value. value ≡ bytes.now) }
    {
        match Value::read_number(bytes) {
            Some(value) => Ok(value),
            None => Value::from_slice(alloc, bytes),
        }
    }
}

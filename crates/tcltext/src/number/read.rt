//! Reading a numeral.

ghost use Rattle.std.specs.Prelude.{◌≡◌, ◌≤◌, ◌<◌, ◌+◌, ◌*◌, ◌^◌, ℤ, IfSome, MatchOption, SomeIff};
ghost use Rattle.tcltext.specs.Numeral.{IsNumeral, IsInRange};
ghost use Rattle.tcltext.specs.White.{skip_white};
ghost use Rattle.tcltext.specs.Numbers.{small, then_white, digits_behind, some_digits, behind_zero, unsigned, is_minus, behind_sign};

use crate::digit;
use crate::white::skip_white;

/// The whole number that a text is: white, an optional sign, decimal digits or `0x`, `0o`, `0b` or
/// `0` with digits, white (expr(n), operands). `None` where the text is no numeral, or its number
/// isn't within 64 bits.
///
/// Takes no memory, and time linear in the length of the text.
pub fn read_int(text: &[u8]) -> Option<i64>
    ensures value { MatchOption result
        ((n : ℤ) → IsNumeral n text.now → IsInRange n → ⊥)
        (λ n. IsNumeral n text.now) }
    ensures in_range { IfSome result IsInRange }
{
    let (negative, digits) = split_sign(skip_white(text));
    let size = read_unsigned(digits)?;
    if negative {
        0i64.checked_sub_unsigned(size)
    } else {
        0i64.checked_add_unsigned(size)
    }
}

// Whether a minus stands at the front, and the text after the sign, if there is one.
fn split_sign(text: &[u8]) -> (bool, &[u8])
    ensures minus { result.0 ≡ is_minus text.now }
    ensures rest { result.1.now ≡ behind_sign text.now }
{
    match text {
        [b'-', rest @ ..] => (true, rest),
        [b'+', rest @ ..] => (false, rest),
        _ => (false, text),
    }
}

// The number of a numeral without a sign and with only white space after it; `None` also where the
// number is past 64 bits.
fn read_unsigned(text: &[u8]) -> Option<u64>
    ensures { result ≡ small (unsigned text.now) }
{
    match text {
        [b'0', rest @ ..] => read_behind_zero(rest),
        _ => read_digits(10, text),
    }
}

fn read_behind_zero(text: &[u8]) -> Option<u64>
    ensures { result ≡ small (behind_zero text.now) }
{
    match text {
        [b'x', rest @ ..] => read_digits(16, rest),
        [b'o', rest @ ..] => read_digits(8, rest),
        [b'b', rest @ ..] => read_digits(2, rest),
        _ => read_more_digits(8, text),
    }
}

fn read_digits(base: u8, text: &[u8]) -> Option<u64>
    requires { 2 ≤ base }
    ensures { result ≡ small (some_digits base text.now) }
{
    match text {
        [c, ..] if digit::value(*c) < base => read_more_digits(base, text),
        _ => None,
    }
}

// The number that the digits at the front make, if any, with only white space after them.
fn read_more_digits(base: u8, text: &[u8]) -> Option<u64>
    requires { 2 ≤ base }
    ensures { result ≡ small (digits_behind base 0 text.now) }
{
    let mut value = 0u64;
    let mut rest = text;
    while let [c, behind @ ..] = rest {
        let digit = digit::value(*c);
        if digit >= base {
            return then_white(value, rest);
        }
        value = with_digit(base, value, digit)?;
        rest = behind;
    }
    Some(value)
}

fn with_digit(base: u8, value: u64, digit: u8) -> Option<u64>
    ensures { SomeIff result (base * value + digit < 2 ^ 64) (base * value + digit) }
{
    u64::from(base)
        .checked_mul(value)?
        .checked_add(u64::from(digit))
}

fn then_white(value: u64, text: &[u8]) -> Option<u64>
    ensures { result ≡ then_white value (skip_white text.now) }
{
    if skip_white(text).is_empty() {
        Some(value)
    } else {
        None
    }
}

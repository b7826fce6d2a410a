//! Digits of the bases from 2 to 16.

ghost use Rattle.std.specs.Prelude.{◌≡◌, ◌≤◌};
ghost use Rattle.tcltext.specs.Digit.{digit_value};

/// The value of a byte that is no digit.
pub(crate) const NO_DIGIT: u8 = 16;

/// The value of a digit, in either case, or [`NO_DIGIT`].
pub(crate) fn value(c: u8) -> u8
    ensures value { result ≡ digit_value c }
    ensures small { result ≤ 16 }
{
    match c {
        b'0'..=b'9' => c - b'0',
        b'a'..=b'f' => c - b'a' + 10,
        b'A'..=b'F' => c - b'A' + 10,
        _ => NO_DIGIT,
    }
}

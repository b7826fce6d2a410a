//! Escapes: what a backslash and the bytes after it stand for (Tcl(n), rule 9).

ghost use Rattle.std.specs.Prelude.{◌≡◌, ◌≤◌, length, MatchResult, IfOk};
ghost use Rattle.tcltext.specs.Escape.{escape, byte_number, hexadecimal_byte, skip_blanks, named_byte};

use crate::digit;
use thiserror::Error;

/// The fault of an escape `\u` or `\U`, which this profile leaves out.
#[derive(Clone, Copy, Debug, PartialEq, Eq, Error)]
#[error("\\u and \\U are not in this profile")]
pub struct EscapeNotHere;

/// Reads an escape whose backslash stands right before `text`: the one byte that it stands for, and
/// the text after it.
///
/// Takes no memory, and time linear in the length of what it reads.
pub fn read(text: &[u8]) -> Result<(u8, &[u8]), EscapeNotHere>
    ensures value { MatchResult result
        (λ r. escape text.now ≡ Ok (r.0, r.1.now))
        (λ e. escape text.now ≡ Err e) }
    ensures shorter { IfOk result (λ r. length r.1.now ≤ length text.now) }
{
    match text {
        [] => Ok((b'\\', text)),
        [b'\n', rest @ ..] => Ok((b' ', skip_blanks(rest))),
        [b'x', rest @ ..] => Ok(hexadecimal(rest)),
        [b'u' | b'U', ..] => Err(EscapeNotHere),
        [b'0'..=b'7', ..] => Ok(number(8, 3, text)),
        [c, rest @ ..] => Ok((named(*c), rest)),
    }
}

// The byte that `c` names after a backslash; where it names none, `c` itself.
fn named(c: u8) -> u8
    ensures { result ≡ named_byte c }
{
    match c {
        b'a' => 7,
        b'b' => 8,
        b't' => b'\t',
        b'n' => b'\n',
        b'v' => 11,
        b'f' => 12,
        b'r' => b'\r',
        _ => c,
    }
}

// What `\x` stands for with this text after it.
fn hexadecimal(text: &[u8]) -> (u8, &[u8])
    ensures value { hexadecimal_byte text.now ≡ (result.0, result.1.now) }
    ensures shorter { length result.1.now ≤ length text.now }
{
    match text {
        [c, ..] if digit::value(*c) < 16 => number(16, 2, text),
        _ => (b'x', text),
    }
}

// The number that at most `most` digits at the front of a text make, each taken only while the
// number fits a byte, and the text after them.
fn number(base: u8, most: u8, text: &[u8]) -> (u8, &[u8])
    requires { base ≤ 16 }
    ensures value { byte_number base most 0 text.now ≡ (result.0, result.1.now) }
    ensures shorter { length result.1.now ≤ length text.now }
{
    let mut value = 0u8;
    let mut left = most;
    let mut rest = text;
    while let [c, behind @ ..] = rest {
        let digit = digit::value(*c);
        let longer = u16::from(base) * u16::from(value) + u16::from(digit);
        if left == 0 || digit >= base || longer > 255 {
            break;
        }
        value = longer as u8;
        left -= 1;
        rest = behind;
    }
    (value, rest)
}

/// The text after its leading blanks and tabs, which a newline after a backslash takes with it
/// (Tcl(n), rule 9).
///
/// Takes no memory, and time linear in the length of what it skips.
pub fn skip_blanks(text: &[u8]) -> &[u8]
    ensures rest { result.now ≡ skip_blanks text.now }
    ensures shorter { length result.now ≤ length text.now }
{
    let mut rest = text;
    while let [b' ' | b'\t', behind @ ..] = rest {
        rest = behind;
    }
    rest
}

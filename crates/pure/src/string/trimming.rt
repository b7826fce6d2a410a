//! `string trim`, `string trimleft` and `string trimright` (string(n)).

ghost use Rattle.pure.specs.Strings.Trimming as meant;
ghost use Rattle.pure.specs.Trim as side;
ghost use Rattle.meanings.specs.View.{Answers};

use crate::trim;
use crate::words::wrong_args;
use acts::Raise;
use std::alloc::Allocator;
use tcltext::Value;

/// What is trimmed where no bytes are named: the null byte and white space.
const BYTES: &[u8] = b"\0\t\n\x0b\x0c\r ";

/// A string without the named bytes at both its ends, or without the bytes of `BYTES` there where
/// none are named.
pub fn at_both_ends<A: Allocator + Copy>(alloc: A, words: &[Value<A>]) -> Result<Value<A>, Raise<A>>
    ensures { Answers (meant.trimmed side.trim words.now) result }
{
    let part = match words {
        [string] => trim::trim(BYTES, string.as_slice()),
        [string, bytes] => trim::trim(bytes.as_slice(), string.as_slice()),
        _ => return wrong_args(alloc, b"string"),
    };
    Ok(Value::from_slice(alloc, part)?)
}

/// A string without the named bytes in front, or without the bytes of `BYTES` there where none are
/// named.
pub fn in_front<A: Allocator + Copy>(alloc: A, words: &[Value<A>]) -> Result<Value<A>, Raise<A>>
    ensures { Answers (meant.trimmed side.trim_left words.now) result }
{
    let part = match words {
        [string] => trim::trim_left(BYTES, string.as_slice()),
        [string, bytes] => trim::trim_left(bytes.as_slice(), string.as_slice()),
        _ => return wrong_args(alloc, b"string"),
    };
    Ok(Value::from_slice(alloc, part)?)
}

/// A string without the named bytes at the end, or without the bytes of `BYTES` there where none
/// are named.
pub fn at_the_end<A: Allocator + Copy>(alloc: A, words: &[Value<A>]) -> Result<Value<A>, Raise<A>>
    ensures { Answers (meant.trimmed side.trim_right words.now) result }
{
    let part = match words {
        [string] => trim::trim_right(BYTES, string.as_slice()),
        [string, bytes] => trim::trim_right(bytes.as_slice(), string.as_slice()),
        _ => return wrong_args(alloc, b"string"),
    };
    Ok(Value::from_slice(alloc, part)?)
}

//! `string tolower` and `string toupper` (string(n)).

ghost use Rattle.std.specs.Prelude.{◌≡◌, map, IfOk};
ghost use Rattle.std.specs.Char.{to_ascii_lowercase, to_ascii_uppercase};
ghost use Rattle.pure.specs.Strings.Case as meant;
ghost use Rattle.meanings.specs.View.{Answers};

use crate::words::wrong_args;
use acts::Raise;
use std::alloc::{AllocError, Allocator};
use tcltext::Value;

/// A string with its ASCII letters in lower case.
pub fn tolower<A: Allocator + Copy>(alloc: A, words: &[Value<A>]) -> Result<Value<A>, Raise<A>>
    ensures { Answers (meant.tolower words.now) result }
{
    match words {
        [string] => Ok(Value::new(alloc, lower(alloc, string.as_slice())?)?),
        _ => wrong_args(alloc, b"string"),
    }
}

/// A string with its ASCII letters in upper case.
pub fn toupper<A: Allocator + Copy>(alloc: A, words: &[Value<A>]) -> Result<Value<A>, Raise<A>>
    ensures { Answers (meant.toupper words.now) result }
{
    match words {
        [string] => Ok(Value::new(alloc, upper(alloc, string.as_slice())?)?),
        _ => wrong_args(alloc, b"string"),
    }
}

/// The bytes in lower case.
fn lower<A: Allocator>(alloc: A, bytes: &[u8]) -> Result<Vec<u8, A>, AllocError>
    ensures { IfOk result (λ text. text.items ≡ map to_ascii_lowercase bytes.now) }
{
    bytes
        .iter()
        .map(|byte| byte.to_ascii_lowercase())
        .collect(alloc)
}

/// The bytes in upper case.
fn upper<A: Allocator>(alloc: A, bytes: &[u8]) -> Result<Vec<u8, A>, AllocError>
    ensures { IfOk result (λ text. text.items ≡ map to_ascii_uppercase bytes.now) }
{
    bytes
        .iter()
        .map(|byte| byte.to_ascii_uppercase())
        .collect(alloc)
}

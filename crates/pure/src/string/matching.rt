//! `string match` (string(n)).

ghost use Rattle.pure.specs.Strings.Match as meant;
ghost use Rattle.meanings.specs.View.{Answers};

use crate::words::wrong_args;
use acts::{Fault, Raise};
use meanings::truth;
use patterns::{Pattern, PatternError};
use std::alloc::Allocator;
use tcltext::Value;

/// Whether a pattern matches a whole string.
pub fn matches<A: Allocator + Copy>(alloc: A, words: &[Value<A>]) -> Result<Value<A>, Raise<A>>
    ensures { Answers (meant.matches words.now) result }
{
    match words {
        [pattern, string] => takes(alloc, pattern.as_slice(), string.as_slice()),
        _ => wrong_args(alloc, b"string"),
    }
}

/// Whether the pattern with this text matches a whole string.
fn takes<A: Allocator + Copy>(alloc: A, pattern: &[u8], string: &[u8]) -> Result<Value<A>, Raise<A>>
    ensures { Answers (meant.takes pattern.now string.now) result }
{
    match Pattern::plain(alloc, pattern) {
        Ok(pattern) => Ok(truth(alloc, pattern.whole(string))?),
        Err(PatternError::TooLong) => Err(Raise::Fault(Fault::PatternTooLong)),
        Err(PatternError::NoMemory(refusal)) => Err(Raise::NoMemory(refusal)),
    }
}

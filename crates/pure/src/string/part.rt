//! `string length`, `string index` and `string range` (string(n)).

ghost use Rattle.pure.specs.Strings.Index as bytes;
ghost use Rattle.pure.specs.Strings.Length as lengths;
ghost use Rattle.pure.specs.Strings.Range as ranges;
ghost use Rattle.meanings.specs.View.{Answers};

use crate::place::{item_at, items_from, place_in};
use crate::words::{bad_argument, number, wrong_args};
use acts::Raise;
use std::alloc::Allocator;
use tcltext::Value;

/// The number of the bytes of a string.
pub fn length<A: Allocator + Copy>(alloc: A, words: &[Value<A>]) -> Result<Value<A>, Raise<A>>
    ensures { Answers (lengths.length words.now) result }
{
    match words {
        [string] => Ok(number(alloc, string.as_slice().len())?),
        _ => wrong_args(alloc, b"string"),
    }
}

/// A byte of a string.
pub fn index<A: Allocator + Copy>(alloc: A, words: &[Value<A>]) -> Result<Value<A>, Raise<A>>
    ensures { Answers (bytes.index words.now) result }
{
    match words {
        [string, index] => byte_at(alloc, string.as_slice(), index),
        _ => wrong_args(alloc, b"string"),
    }
}

/// The byte at the place that an index names, or the empty text where it lies outside.
fn byte_at<A: Allocator + Copy>(
    alloc: A,
    string: &[u8],
    index: &Value<A>,
) -> Result<Value<A>, Raise<A>>
    ensures { Answers (bytes.byte_at string.now index.now) result }
{
    let Some(place) = place_in(index, string.len()) else {
        return bad_argument(alloc, index.as_slice(), b"string");
    };
    match item_at(string, place) {
        Some(byte) => Ok(Value::from_slice(alloc, &[*byte])?),
        None => Ok(Value::empty()),
    }
}

/// A part of a string.
pub fn range<A: Allocator + Copy>(alloc: A, words: &[Value<A>]) -> Result<Value<A>, Raise<A>>
    ensures { Answers (ranges.range words.now) result }
{
    match words {
        [string, first, last] => part(alloc, string.as_slice(), first, last),
        _ => wrong_args(alloc, b"string"),
    }
}

/// The bytes from one place up to and including another.
fn part<A: Allocator + Copy>(
    alloc: A,
    string: &[u8],
    first: &Value<A>,
    last: &Value<A>,
) -> Result<Value<A>, Raise<A>>
    ensures { Answers (ranges.part string.now first.now last.now) result }
{
    let Some(from) = place_in(first, string.len()) else {
        return bad_argument(alloc, first.as_slice(), b"string");
    };
    let Some(to) = place_in(last, string.len()) else {
        return bad_argument(alloc, last.as_slice(), b"string");
    };
    Ok(Value::from_slice(alloc, items_from(string, from, to))?)
}

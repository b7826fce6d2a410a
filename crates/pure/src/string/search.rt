//! `string first` and `string last` (string(n)).

ghost use Rattle.std.specs.Prelude.{◌≡◌, IfOk};
ghost use Rattle.pure.specs.Strings.Search as meant;
ghost use Rattle.meanings.specs.View.{Answers};

use crate::words::{number, wrong_args};
use acts::Raise;
use memchr::memmem;
use memory::NoMemory;
use std::alloc::Allocator;
use tcltext::Value;

/// The least place at which a text stands in a string.
pub fn first<A: Allocator + Copy>(alloc: A, words: &[Value<A>]) -> Result<Value<A>, Raise<A>>
    ensures { Answers (meant.first words.now) result }
{
    match words {
        [needle, string] => {
            let place = first_place(needle.as_slice(), string.as_slice());
            Ok(told(alloc, place)?)
        }
        _ => wrong_args(alloc, b"string"),
    }
}

/// The greatest place at which a text stands in a string.
pub fn last<A: Allocator + Copy>(alloc: A, words: &[Value<A>]) -> Result<Value<A>, Raise<A>>
    ensures { Answers (meant.last words.now) result }
{
    match words {
        [needle, string] => {
            let place = last_place(needle.as_slice(), string.as_slice());
            Ok(told(alloc, place)?)
        }
        _ => wrong_args(alloc, b"string"),
    }
}

/// The text of a place, or of -1 where there is none.
fn told<A: Allocator + Copy>(alloc: A, place: Option<usize>) -> Result<Value<A>, NoMemory>
    ensures { IfOk result (λ text. text ≡ meant.told place) }
{
    match place {
        Some(place) => number(alloc, place),
        None => Value::from_slice(alloc, b"-1"),
    }
}

/// The least place at which a needle stands in a text, in time that is linear in both; the empty
/// needle stands nowhere.
fn first_place(needle: &[u8], text: &[u8]) -> Option<usize>
    ensures { result ≡ meant.first_place needle.now text.now }
{
    if needle.is_empty() {
        return None;
    }
    memmem::find(text, needle)
}

/// The greatest place at which a needle stands in a text, in time that is linear in both; the empty
/// needle stands nowhere.
fn last_place(needle: &[u8], text: &[u8]) -> Option<usize>
    ensures { result ≡ meant.last_place needle.now text.now }
{
    if needle.is_empty() {
        return None;
    }
    memmem::rfind(text, needle)
}

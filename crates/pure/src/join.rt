//! `join l ?separator?` (join(n)).

ghost use Rattle.pure.specs.Join as meant;
ghost use Rattle.meanings.specs.Meaning.{Splits};
ghost use Rattle.meanings.specs.View.{Answers};

use crate::words::wrong_args;
use acts::Raise;
use meanings::joined;
use std::alloc::Allocator;
use tcltext::Value;

/// The elements of a list as one text.
pub fn join<A: Allocator + Copy>(alloc: A, words: &[Value<A>]) -> Result<Value<A>, Raise<A>>
    ensures { Answers (meant.join words.now) result }
{
    match words {
        [list] => text_of(alloc, list, b" "),
        [list, separator] => text_of(alloc, list, separator.as_slice()),
        _ => wrong_args(alloc, b"join"),
    }
}

/// The elements of the list that a word spells, with a separator between them.
fn text_of<A: Allocator + Copy>(
    alloc: A,
    list: &Value<A>,
    separator: &[u8],
) -> Result<Value<A>, Raise<A>>
    ensures { Answers (Splits list.now (meant.text_of separator.now)) result }
{
    Ok(joined(alloc, list, separator)?)
}

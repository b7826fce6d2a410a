//! `lrange l i j` (lrange(n)).

ghost use Rattle.std.specs.Prelude.{[], ◌∷◌};
ghost use Rattle.pure.specs.Lrange as meant;
ghost use Rattle.meanings.specs.View.{Answers};

use crate::place::{behind, fixed_place, place_of, up_to};
use crate::words::{bad_argument, wrong_args};
use acts::Raise;
use meanings::{list_len, range_of};
use std::alloc::Allocator;
use tcltext::Value;

/// A part of a list.
pub fn lrange<A: Allocator + Copy>(alloc: A, words: &[Value<A>]) -> Result<Value<A>, Raise<A>>
    ensures { Answers (meant.lrange words.now) result }
{
    match words {
        [list, first, last] => part_of(alloc, list, first, last),
        _ => wrong_args(alloc, b"lrange"),
    }
}

/// The part of the list that a word spells.
fn part_of<A: Allocator + Copy>(
    alloc: A,
    list: &Value<A>,
    first: &Value<A>,
    last: &Value<A>,
) -> Result<Value<A>, Raise<A>>
    ensures { Answers (meant.lrange (list.now ∷ first.now ∷ last.now ∷ [])) result }
{
    match (fixed_place(first), fixed_place(last)) {
        (Some(from), Some(to)) => {
            Ok(range_of(alloc, list, from, (to + 1).saturating_sub(from))?)
        }
        _ => part_by_words(alloc, list, first.as_slice(), last.as_slice()),
    }
}

/// The part between the places that two words name among all elements.
fn part_by_words<A: Allocator + Copy>(
    alloc: A,
    list: &Value<A>,
    first: &[u8],
    last: &[u8],
) -> Result<Value<A>, Raise<A>>
    ensures { Answers (meant.lrange (list.now ∷ first.now ∷ last.now ∷ [])) result }
{
    let len = list_len(alloc, list)?;
    let Some(from) = place_of(first, len) else {
        return bad_argument(alloc, first, b"lrange");
    };
    let Some(to) = place_of(last, len) else {
        return bad_argument(alloc, last, b"lrange");
    };
    let before = up_to(from, len);
    let most = behind(to, len).saturating_sub(before);
    Ok(range_of(alloc, list, before, most)?)
}

//! `lindex l ?i?` (lindex(n)).

ghost use Rattle.std.specs.Prelude.{◌≡◌, ℕ, List, [], ◌∷◌, Some, pos};
ghost use Rattle.pure.specs.Lindex as meant;
ghost use Rattle.pure.specs.Place.{place_of};
ghost use Rattle.meanings.specs.View.{Answers};

use crate::place::{fixed_place, place_of, within};
use crate::words::{bad_argument, wrong_args};
use acts::Raise;
use meanings::{element_at, list_len};
use std::alloc::Allocator;
use tcltext::Value;

/// An element of a list; without an index the list as it stands.
pub fn lindex<A: Allocator + Copy>(alloc: A, words: &[Value<A>]) -> Result<Value<A>, Raise<A>>
    ensures { Answers (meant.lindex words.now) result }
{
    match words {
        [list] => whole(alloc, list),
        [list, index] => at(alloc, list, index),
        _ => wrong_args(alloc, b"lindex"),
    }
}

/// The word as it stands, if it is a list.
fn whole<A: Allocator + Copy>(alloc: A, list: &Value<A>) -> Result<Value<A>, Raise<A>>
    ensures { Answers (meant.lindex (list.now ∷ [])) result }
{
    list_len(alloc, list)?;
    Ok(list.share()?)
}

/// The element at the place that an index word names.
fn at<A: Allocator + Copy>(
    alloc: A,
    list: &Value<A>,
    index: &Value<A>,
) -> Result<Value<A>, Raise<A>>
    ensures { Answers (meant.lindex (list.now ∷ index.now ∷ [])) result }
{
    match fixed_place(index) {
        Some(number) => at_number(alloc, list, number),
        None => at_word(alloc, list, index.as_slice()),
    }
}

/// The element at the place that an index word names however many elements there are, or the empty
/// text where that lies behind the last one.
fn at_number<A: Allocator + Copy>(
    alloc: A,
    list: &Value<A>,
    number: usize,
) -> Result<Value<A>, Raise<A>>
    ensures { (index : List ℕ) → ((n : ℕ) → place_of index n ≡ Some (pos number)) →
        Answers (meant.lindex (list.now ∷ index ∷ [])) result }
{
    match element_at(alloc, list, number)? {
        Some(element) => Ok(element),
        None => Ok(Value::empty()),
    }
}

/// The element at the place that an index word names among all elements.
fn at_word<A: Allocator + Copy>(
    alloc: A,
    list: &Value<A>,
    index: &[u8],
) -> Result<Value<A>, Raise<A>>
    ensures { Answers (meant.lindex (list.now ∷ index.now ∷ [])) result }
{
    let len = list_len(alloc, list)?;
    let Some(place) = place_of(index, len) else {
        return bad_argument(alloc, index, b"lindex");
    };
    let Some(place) = within(place, len) else {
        return Ok(Value::empty());
    };
    match element_at(alloc, list, place)? {
        Some(element) => Ok(element),
        None => Ok(Value::empty()),
    }
}

//! The places that index words name in lists and strings.

ghost use Rattle.std.specs.Prelude.{◌≡◌, ◌<◌, ◌^◌, ℕ, ◌+ℤ◌, ◌-ℤ◌, pos, min, Some, IfSome, option_copied, option_map};
ghost use Rattle.pure.specs.Place as meant;

use std::alloc::Allocator;
use tcltext::{Value, read_int};

/// The place that an index word names among `len` elements, which may lie before or after them all;
/// `None` where the word is not an index (string(n), string index).
pub fn place_of(word: &[u8], len: usize) -> Option<i128>
    ensures { result ≡ meant.place_of word.now len }
{
    match word.strip_prefix(b"end".as_slice()) {
        Some(rest) => behind_end(rest, len),
        None => Some(i128::from(whole_of(word)?)),
    }
}

/// The place that an index word names however many elements there are: the word is a number and not
/// negative (string(n), string index). `None` where it is another word.
pub fn fixed_place<A: Allocator>(word: &Value<A>) -> Option<usize>
    ensures place { IfSome result (λ place.
        (n : ℕ) → meant.place_of word.now n ≡ Some (pos place)) }
    ensures small { IfSome result (λ place. place < 2 ^ 63) }
{
    match usize::try_from(word.number()?) {
        Ok(place) => Some(place),
        Err(_) => None,
    }
}

/// The place that an index word names among `len` elements, which may lie before or after them all;
/// `None` where the word is not an index (string(n), string index). A number that is kept with the
/// word is not read.
#[inline(always)]
pub fn place_in<A: Allocator>(word: &Value<A>, len: usize) -> Option<i128>
    ensures { result ≡ meant.place_of word.now len }
{
    match fixed_place(word) {
        Some(place) => Some(place as i128),
        None => place_of(word.as_slice(), len),
    }
}

/// The place that `end` with this text after it names.
fn behind_end(text: &[u8], len: usize) -> Option<i128>
    ensures { result ≡ meant.behind_end len text.now }
{
    match text {
        [] => Some(len as i128 - 1),
        [b'-', number @ ..] => before_last(number, len),
        _ => None,
    }
}

/// The place that precedes the last one of `len` elements by the number that this text spells;
/// `None` where it spells none.
fn before_last(number: &[u8], len: usize) -> Option<i128>
    ensures { result ≡ option_map (λ k. meant.last_of len -ℤ k) (meant.whole_of number.now) }
{
    let last = len as i128 - 1;
    Some(last - i128::from(whole_of(number)?))
}

/// The whole number that a text spells, if 64 bits hold it.
fn whole_of(text: &[u8]) -> Option<i64>
    ensures { result ≡ meant.whole_of text.now }
{
    read_int(text)
}

/// The place as the index of one of `len` elements; `None` where it lies before or after them.
pub fn within(place: i128, len: usize) -> Option<usize>
    ensures { result ≡ meant.within place len }
{
    if place < 0 || len as i128 <= place {
        return None;
    }
    Some(place as usize)
}

/// The item at a place, if there is one.
pub fn item_at<T>(items: &[T], place: i128) -> Option<&T>
    ensures { option_copied result ≡ meant.item_at items.now place }
{
    if place < 0 || items.len() as i128 <= place {
        return None;
    }
    items.get(place as usize)
}

/// The items from one place up to and including another, as far as there are any.
pub fn items_from<T>(items: &[T], first: i128, last: i128) -> &[T]
    ensures { result.now ≡ meant.items_from items.now first last }
{
    let from = up_to(first, items.len());
    let to = behind(last, items.len());
    if from < to { &items[from..to] } else { &[] }
}

/// How many of `len` elements stand before a place.
pub fn up_to(place: i128, len: usize) -> usize
    ensures { result ≡ min (meant.natural place) len }
{
    if place < 0 {
        0
    } else if len as i128 <= place {
        len
    } else {
        place as usize
    }
}

/// How many of `len` elements stand before a place or at it.
pub fn behind(place: i128, len: usize) -> usize
    ensures { result ≡ min (meant.natural (place +ℤ pos 1)) len }
{
    if place < 0 {
        0
    } else if len as i128 <= place {
        len
    } else {
        place as usize + 1
    }
}

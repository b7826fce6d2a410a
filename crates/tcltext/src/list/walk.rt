//! What is read of a list's text at once, so that no elements are stored.

ghost use Rattle.std.specs.Prelude.{◌≡◌, ℕ, List, [], ◌∷◌, ◌++◌, length, take, drop, slice_get, Some, if◌then◌else◌, IfOk, IfErr, IfSome, OnOk};
ghost use Rattle.tcltext.specs.Canonical.{canonical};
ghost use Rattle.tcltext.specs.Elements.{IsList, HasFlaw};
ghost use Rattle.tcltext.specs.Joined.{joined};
ghost use Rattle.tcltext.specs.Seen.{bytes_of, flaw_of};

use super::ListFault;
use super::join::push_next;
use super::taken::{Taken, take};
use crate::short::IN_PLACE;
use crate::value::Value;
use crate::white::skip_white;
use memory::NoMemory;
use std::alloc::Allocator;

/// The number of elements of the list that a text is (llength(n)).
pub(crate) fn count<A: Allocator + Copy>(alloc: A, text: &[u8]) -> Result<usize, ListFault>
    ensures len { IfOk result
        (λ n. (v : List (List ℕ)) × IsList v text.now × (n ≡ length v)) }
    ensures fault { IfErr result (λ f. IfSome (flaw_of f) (λ flaw. HasFlaw flaw text.now)) }
{
    let mut count = 0;
    let mut rest = skip_white(text);
    while !rest.is_empty() {
        let (_element, behind) = take(alloc, rest)?;
        count += 1;
        rest = skip_white(behind);
    }
    Ok(count)
}

/// The element at a place of the list that a text is, or `None` where the place is beyond the last
/// one (lindex(n)).
pub(crate) fn nth<A: Allocator + Copy>(
    alloc: A,
    text: &[u8],
    place: usize,
) -> Result<Option<Value<A>>, ListFault>
    ensures element { IfOk result (λ e. (v : List (List ℕ))
        × IsList v text.now × (e ≡ slice_get v place)) }
    ensures fault { IfErr result (λ f. IfSome (flaw_of f) (λ flaw. HasFlaw flaw text.now)) }
{
    let mut found = None;
    let mut before = 0;
    let mut rest = skip_white(text);
    while !rest.is_empty() {
        let (element, behind) = take(alloc, rest)?;
        found = found_or(alloc, found, before == place, element)?;
        before += 1;
        rest = skip_white(behind);
    }
    Ok(found)
}

/// A value of the element where it is the one that is sought, else what was found before it.
fn found_or<A: Allocator + Copy>(
    alloc: A,
    found: Option<Value<A>>,
    is_sought: bool,
    element: Taken<'_, A>,
) -> Result<Option<Value<A>>, NoMemory>
    ensures { IfOk result (λ now.
        now ≡ (if is_sought then Some (bytes_of element.entry) else found)) }
{
    if is_sought {
        Ok(Some(element.value(alloc)?))
    } else {
        Ok(found)
    }
}

/// The canonical text of at most `most` elements, from the place `from` on, of the list that a text
/// is (lrange(n)).
pub(crate) fn range<A: Allocator + Copy>(
    alloc: A,
    text: &[u8],
    from: usize,
    most: usize,
) -> Result<Value<A>, ListFault>
    ensures list { IfOk result (λ list. (v : List (List ℕ))
        × IsList v text.now × (list ≡ canonical (take most (drop from v)))) }
    ensures fault { IfErr result (λ f. IfSome (flaw_of f) (λ flaw. HasFlaw flaw text.now)) }
{
    let mut list = Vec::new(alloc);
    let mut before = 0;
    let mut rest = skip_white(text);
    while !rest.is_empty() {
        let (element, behind) = take(alloc, rest)?;
        push_within(&mut list, before, from, most, element.as_slice())?;
        before += 1;
        rest = skip_white(behind);
    }
    Ok(Value::marked(alloc, list, true)?)
}

/// Writes the element at a place after those before it, if it is one of the `most` elements from
/// the place `from` on.
fn push_within<A: Allocator>(
    list: &mut Vec<u8, A>,
    place: usize,
    from: usize,
    most: usize,
    element: &[u8],
) -> Result<(), NoMemory>
    ensures { (v : List (List ℕ)) → place ≡ length v →
        list.old.items ≡ canonical (take most (drop from v)) →
        OnOk result (list.new.items ≡ canonical (take most (drop from (v ++ element.now ∷ [])))) }
{
    if place < from || most <= place - from {
        return Ok(());
    }
    let first = list.is_empty();
    if first {
        list.reserve(IN_PLACE)?;
    }
    push_next(list, first, element)?;
    Ok(())
}

/// The elements of the list that a text is as one text, with a separator between them (join(n)).
pub(crate) fn joined<A: Allocator + Copy>(
    alloc: A,
    text: &[u8],
    separator: &[u8],
) -> Result<Vec<u8, A>, ListFault>
    ensures joined { IfOk result (λ whole. (v : List (List ℕ))
        × IsList v text.now × (whole.items ≡ joined separator.now v)) }
    ensures fault { IfErr result (λ f. IfSome (flaw_of f) (λ flaw. HasFlaw flaw text.now)) }
{
    let mut whole = Vec::new(alloc);
    let mut first = true;
    let mut rest = skip_white(text);
    while !rest.is_empty() {
        let (element, behind) = take(alloc, rest)?;
        push_separated(&mut whole, first, separator, element.as_slice(), rest.len())?;
        first = false;
        rest = skip_white(behind);
    }
    Ok(whole)
}

/// Puts a text after those before it, with the separator between them where it is not the first.
/// With the first comes room for so many bytes.
fn push_separated<A: Allocator>(
    whole: &mut Vec<u8, A>,
    first: bool,
    separator: &[u8],
    text: &[u8],
    room: usize,
) -> Result<(), NoMemory>
    ensures { OnOk result (whole.new.items ≡
        whole.old.items ++ ((if first then [] else separator.now) ++ text.now)) }
{
    if first {
        whole.reserve(room)?;
    } else {
        whole.extend_from_slice(separator)?;
    }
    whole.extend_from_slice(text)?;
    Ok(())
}

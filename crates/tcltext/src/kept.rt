//! The place beside a text that keeps the elements of its list once they have been read.

ghost use Rattle.std.specs.Prelude.{◌≡◌, ℕ, List, length, take, drop, IfOk, IfErr, IfSome, slice_get};
ghost use Rattle.tcltext.specs.Elements.{IsList, HasFlaw};
ghost use Rattle.tcltext.specs.Seen.{flaw_of};
ghost use Rattle.tcltext.specs.Both.{Both};

use crate::kept_elements::Elements;
use crate::list::ListFault;
use crate::value::Value;
use counted_slot::{Counted, FREE, ONE_READER, PRESENT, TAKEN};
use memory::NoMemory;
use std::alloc::Allocator;

/// Keeps these elements, unless elements are kept already.
pub(crate) fn keep<A: Allocator>(kept: &Counted<Option<Elements<A>>>, elements: Elements<A>)
    requires { IsList elements kept.now.items }
{
    let (found, claim) = kept.turn(FREE, TAKEN);
    if found != FREE {
        claim.done();
        return;
    }
    claim.put(Some(elements), PRESENT);
}

/// The number of elements, or `None` where they are not kept.
pub(crate) fn len<A: Allocator>(kept: &Counted<Option<Elements<A>>>) -> Option<usize>
    ensures { IfSome result
        (λ n. (v : List (List ℕ)) × IsList v kept.now.items × (n ≡ length v)) }
{
    let (found, claim) = kept.turn(PRESENT, PRESENT + ONE_READER);
    if found != PRESENT {
        claim.done();
        return None;
    }
    let len = len_of(claim.get());
    claim.leave();
    len
}

/// The number of elements in the slot, or `None` where it is empty.
fn len_of<A: Allocator>(elements: &Option<Elements<A>>) -> Option<usize>
    ensures { Both result elements.now (λ n v. n ≡ length v) }
{
    match elements {
        Some(elements) => Some(elements.len()),
        None => None,
    }
}

/// The element at a place. The outer `None` says that no elements are kept, the inner one that the
/// place is beyond the last of them.
pub(crate) fn at<A: Allocator + Copy>(
    alloc: A,
    kept: &Counted<Option<Elements<A>>>,
    place: usize,
) -> Result<Option<Option<Value<A>>>, NoMemory>
    ensures { IfOk result (λ told. IfSome told
        (λ e. (v : List (List ℕ)) × IsList v kept.now.items × (e ≡ slice_get v place))) }
{
    let (found, claim) = kept.turn(PRESENT, PRESENT + ONE_READER);
    if found != PRESENT {
        claim.done();
        return Ok(None);
    }
    let told = at_of(alloc, claim.get(), place);
    claim.leave();
    told
}

/// The element at a place among those in the slot, with the two `None` of [`at`].
fn at_of<A: Allocator + Copy>(
    alloc: A,
    elements: &Option<Elements<A>>,
    place: usize,
) -> Result<Option<Option<Value<A>>>, NoMemory>
    ensures { IfOk result (λ told. Both told elements.now (λ e v. e ≡ slice_get v place)) }
{
    match elements {
        Some(elements) => Ok(Some(elements.at(alloc, place)?)),
        None => Ok(None),
    }
}

/// At most `most` elements from the place `from` on, or `None` where no elements are kept.
pub(crate) fn part<A: Allocator + Copy>(
    alloc: A,
    kept: &Counted<Option<Elements<A>>>,
    from: usize,
    most: usize,
) -> Result<Option<Vec<Value<A>, A>>, NoMemory>
    ensures { IfOk result (λ told. IfSome told (λ part. (v : List (List ℕ))
        × IsList v kept.now.items × (part.items ≡ take most (drop from v)))) }
{
    let (found, claim) = kept.turn(PRESENT, PRESENT + ONE_READER);
    if found != PRESENT {
        claim.done();
        return Ok(None);
    }
    let told = part_of(alloc, claim.get(), from, most);
    claim.leave();
    told
}

/// At most `most` of the elements in the slot from the place `from` on, or `None` where it is
/// empty.
fn part_of<A: Allocator + Copy>(
    alloc: A,
    elements: &Option<Elements<A>>,
    from: usize,
    most: usize,
) -> Result<Option<Vec<Value<A>, A>>, NoMemory>
    ensures { IfOk result (λ told.
        Both told elements.now (λ part v. part.items ≡ take most (drop from v))) }
{
    match elements {
        Some(elements) => Ok(Some(elements.part(alloc, from, most)?)),
        None => Ok(None),
    }
}

/// The number of elements of the list that a text is. The elements are kept from then on.
pub(crate) fn read_len<A: Allocator + Copy>(
    alloc: A,
    text: &[u8],
    kept: &Counted<Option<Elements<A>>>,
) -> Result<usize, ListFault>
    requires { kept.now.items ≡ text.now }
    ensures len { IfOk result
        (λ n. (v : List (List ℕ)) × IsList v text.now × (n ≡ length v)) }
    ensures fault { IfErr result (λ f. IfSome (flaw_of f) (λ flaw. HasFlaw flaw text.now)) }
{
    if let Some(len) = len(kept) {
        return Ok(len);
    }
    let elements = Elements::read(alloc, text)?;
    let len = elements.len();
    keep(kept, elements);
    Ok(len)
}

/// The element at a place of the list that a text is, or `None` where the place is beyond the last
/// one. All its elements are kept from then on.
pub(crate) fn read_at<A: Allocator + Copy>(
    alloc: A,
    text: &[u8],
    kept: &Counted<Option<Elements<A>>>,
    place: usize,
) -> Result<Option<Value<A>>, ListFault>
    requires { kept.now.items ≡ text.now }
    ensures element { IfOk result (λ e. (v : List (List ℕ))
        × IsList v text.now × (e ≡ slice_get v place)) }
    ensures fault { IfErr result (λ f. IfSome (flaw_of f) (λ flaw. HasFlaw flaw text.now)) }
{
    if let Some(element) = at(alloc, kept, place)? {
        return Ok(element);
    }
    let elements = Elements::read(alloc, text)?;
    let element = elements.at(alloc, place)?;
    keep(kept, elements);
    Ok(element)
}

/// At most `most` elements, from the place `from` on, of the list that a text is. All its elements
/// are kept from then on.
pub(crate) fn read_part<A: Allocator + Copy>(
    alloc: A,
    text: &[u8],
    kept: &Counted<Option<Elements<A>>>,
    from: usize,
    most: usize,
) -> Result<Vec<Value<A>, A>, ListFault>
    requires { kept.now.items ≡ text.now }
    ensures part { IfOk result (λ part. (v : List (List ℕ))
        × IsList v text.now × (part.items ≡ take most (drop from v))) }
    ensures fault { IfErr result (λ f. IfSome (flaw_of f) (λ flaw. HasFlaw flaw text.now)) }
{
    if let Some(part) = part(alloc, kept, from, most)? {
        return Ok(part);
    }
    let elements = Elements::read(alloc, text)?;
    let part = elements.part(alloc, from, most)?;
    keep(kept, elements);
    Ok(part)
}

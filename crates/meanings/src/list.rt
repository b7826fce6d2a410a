//! The reading of a text as a list.

ghost use Rattle.std.specs.Prelude.{◌≡◌, ℕ, List, drop, length, option_map, slice_get, take, IfErr, IfOk};
ghost use Rattle.meanings.specs.Meaning.{flaw_of_list};
ghost use Rattle.meanings.specs.View.{Tells, IsNoList};
ghost use Rattle.tcltext.specs.Canonical.{IsListOf, canonical};
ghost use Rattle.tcltext.specs.Elements.{IsList};
ghost use Rattle.tcltext.specs.Joined.{joined};
ghost use Rattle.tcltext.specs.Seen.{flaw_of};

use acts::{Fault, Raise};
use std::alloc::Allocator;
use tcltext::{ListFault, Value, split_values};

/// The elements of the list that a text spells (Tcl_SplitList(3)).
///
/// # Errors
/// The script's error where the text is not a list. `NoMemory` where memory is refused.
pub fn elements<A: Allocator + Copy>(alloc: A, text: &[u8]) -> Result<Vec<Value<A>, A>, Raise<A>>
    ensures list { IfOk result (λ elements. IsList elements.items text.now) }
    ensures fault { IfErr result (IsNoList text.now) }
{
    match split_values(alloc, text) {
        Ok(elements) => Ok(elements),
        Err(fault) => Err(no_list(fault)),
    }
}

/// The canonical text of the list that a text spells (Tcl_SplitList(3); list(n)).
///
/// # Errors
/// Those of [`elements`].
pub fn list_of<A: Allocator + Copy>(alloc: A, text: &Value<A>) -> Result<Value<A>, Raise<A>>
    ensures list { IfOk result (IsListOf text.now) }
    ensures fault { IfErr result (IsNoList text.now) }
{
    match text.as_list(alloc) {
        Ok(list) => Ok(list),
        Err(fault) => Err(no_list(fault)),
    }
}

/// The number of elements of the list that a text spells (llength(n)). A long text keeps its
/// elements, so that they are read once.
///
/// # Errors
/// Those of [`elements`].
pub fn list_len<A: Allocator + Copy>(alloc: A, text: &Value<A>) -> Result<usize, Raise<A>>
    ensures len { IfOk result (λ n. (v : List (List ℕ)) × IsList v text.now × (n ≡ length v)) }
    ensures fault { IfErr result (IsNoList text.now) }
{
    match text.list_len(alloc) {
        Ok(len) => Ok(len),
        Err(fault) => Err(no_list(fault)),
    }
}

/// The element at a place, counted from 0, of the list that a text spells, or `None` where the list
/// has no such place (lindex(n)). A long text keeps its elements, so that they are read once.
///
/// # Errors
/// Those of [`elements`].
pub fn element_at<A: Allocator + Copy>(
    alloc: A,
    text: &Value<A>,
    place: usize,
) -> Result<Option<Value<A>>, Raise<A>>
    ensures element { IfOk result (λ e. (v : List (List ℕ))
        × IsList v text.now × (e ≡ slice_get v place)) }
    ensures fault { IfErr result (IsNoList text.now) }
{
    match text.element_at(alloc, place) {
        Ok(element) => Ok(element),
        Err(fault) => Err(no_list(fault)),
    }
}

/// The canonical text of at most `most` elements, from the place `from` on, of the list that a text
/// spells (lrange(n)). A long text keeps its elements, so that they are read once.
///
/// # Errors
/// Those of [`elements`].
pub fn range_of<A: Allocator + Copy>(
    alloc: A,
    text: &Value<A>,
    from: usize,
    most: usize,
) -> Result<Value<A>, Raise<A>>
    ensures list { IfOk result (λ list. (v : List (List ℕ))
        × IsList v text.now × (list ≡ canonical (take most (drop from v)))) }
    ensures fault { IfErr result (IsNoList text.now) }
{
    match text.range(alloc, from, most) {
        Ok(list) => Ok(list),
        Err(fault) => Err(no_list(fault)),
    }
}

/// The elements of the list that a text spells as one text, with a separator between them
/// (join(n)).
///
/// # Errors
/// Those of [`elements`].
pub fn joined<A: Allocator + Copy>(
    alloc: A,
    text: &Value<A>,
    separator: &[u8],
) -> Result<Value<A>, Raise<A>>
    ensures joined { IfOk result (λ whole. (v : List (List ℕ))
        × IsList v text.now × (whole ≡ joined separator.now v)) }
    ensures fault { IfErr result (IsNoList text.now) }
{
    match text.joined(alloc, separator) {
        Ok(whole) => Ok(whole),
        Err(fault) => Err(no_list(fault)),
    }
}

/// Why a text is not a list, as the script's error (Tcl_SplitList(3)); `NoMemory` where memory was
/// refused.
pub fn no_list<A: Allocator>(fault: ListFault) -> Raise<A>
    ensures { Tells result (option_map flaw_of_list (flaw_of fault)) }
{
    let told = match fault {
        ListFault::OpenBrace => Fault::ListOpenBrace,
        ListFault::OpenQuote => Fault::ListOpenQuote,
        ListFault::AfterBrace => Fault::ListAfterBrace,
        ListFault::AfterQuote => Fault::ListAfterQuote,
        ListFault::EscapeNotHere => Fault::EscapeNotHere,
        ListFault::NoMemory(refusal) => return Raise::NoMemory(refusal),
    };
    Raise::Fault(told)
}

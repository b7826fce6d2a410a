//! Reading a text as a list.

ghost use Rattle.std.specs.Prelude.{IfOk, IfErr, IfSome};
ghost use Rattle.tcltext.specs.Elements.{IsList, HasFlaw};
ghost use Rattle.tcltext.specs.Seen.{texts, flaw_of};

use super::taken::take;
use super::{ListFault, element};
use crate::value::Value;
use crate::white::skip_white;
use std::alloc::Allocator;

/// Reads a text as a list: its elements, in order (Tcl_SplitList(3)).
///
/// Takes time and memory linear in the length of the text. An `Err` other than
/// [`ListFault::NoMemory`] is the fault that comes first from the left; a brace or quote that is
/// never closed counts as a fault at the text's end.
pub fn split_list<A: Allocator + Copy>(
    alloc: A,
    text: &[u8],
) -> Result<Vec<Vec<u8, A>, A>, ListFault>
    ensures list { IfOk result (λ v. IsList (texts v.items) text.now) }
    ensures fault { IfErr result (λ f. IfSome (flaw_of f) (λ flaw. HasFlaw flaw text.now)) }
{
    let mut elements = Vec::new(alloc);
    let mut rest = skip_white(text);
    while !rest.is_empty() {
        let (element, behind) = element::read(alloc, rest)?;
        elements.push(element)?;
        rest = skip_white(behind);
    }
    Ok(elements)
}

/// Reads a text as a list of values, whose bytes are copied from the text once (Tcl_SplitList(3)).
///
/// Time, memory and errors are those of [`split_list`].
pub fn split_values<A: Allocator + Copy>(
    alloc: A,
    text: &[u8],
) -> Result<Vec<Value<A>, A>, ListFault>
    ensures list { IfOk result (λ v. IsList v.items text.now) }
    ensures fault { IfErr result (λ f. IfSome (flaw_of f) (λ flaw. HasFlaw flaw text.now)) }
{
    let mut elements = Vec::new(alloc);
    let mut rest = skip_white(text);
    while !rest.is_empty() {
        let (element, behind) = take(alloc, rest)?;
        elements.push(element.value(alloc)?)?;
        rest = skip_white(behind);
    }
    Ok(elements)
}

//! Words that are read as lists.

ghost use Rattle.std.specs.Prelude.{IfOk};
ghost use Rattle.nesting.specs.Looping.{Comes};
ghost use Rattle.state.specs.Listed.{with_list};

use acts::{Fault, NoMemory, Raise};
use meanings::elements;
use std::alloc::Allocator;
use tcltext::Value;

/// The elements of a list, or the script's error where the text is not a list.
pub(crate) fn elements_of<A: Allocator + Copy>(
    alloc: A,
    text: &[u8],
) -> Result<Result<Vec<Value<A>, A>, Fault<A>>, NoMemory>
    ensures { IfOk result (λ r. Comes r (λ elements. elements.items) (with_list text.now)) }
{
    match elements(alloc, text) {
        Ok(elements) => Ok(Ok(elements)),
        Err(Raise::Fault(fault)) => Ok(Err(fault)),
        Err(Raise::NoMemory(refusal)) => Err(refusal),
    }
}

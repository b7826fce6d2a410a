//! Whether a text is an element of a list.

ghost use Rattle.std.specs.Prelude.{◌≡◌, IfOk, IfErr};
ghost use Rattle.meanings.specs.View.{Answers, IsNoList};
ghost use Rattle.operators.specs.Member as meant;
ghost use Rattle.operators.specs.Member.{IsFound};

use crate::operand::Operand;
use acts::Raise;
use itoa::Buffer;
use meanings::elements;
use std::alloc::Allocator;
use tcltext::Value;

/// `text in list` (expr(n), in).
pub fn is_in<A: Allocator + Copy>(
    alloc: A,
    text: &Operand<A>,
    list: &Operand<A>,
) -> Result<Operand<A>, Raise<A>>
    ensures { Answers (meant.is_in text.now list.now) result }
{
    let found = is_found(alloc, text, list)?;
    Ok(Operand::truth(found))
}

/// `text ni list` (expr(n), ni).
pub fn is_not_in<A: Allocator + Copy>(
    alloc: A,
    text: &Operand<A>,
    list: &Operand<A>,
) -> Result<Operand<A>, Raise<A>>
    ensures { Answers (meant.is_not_in text.now list.now) result }
{
    let found = is_found(alloc, text, list)?;
    Ok(Operand::truth(!found))
}

/// Whether a text is an element of the list that another text spells.
fn is_found<A: Allocator + Copy>(
    alloc: A,
    text: &Operand<A>,
    list: &Operand<A>,
) -> Result<bool, Raise<A>>
    ensures ok { IfOk result (IsFound text.now list.now) }
    ensures fault { IfErr result (IsNoList list.now) }
{
    let mut buffer = Buffer::new();
    let elements = elements(alloc, list.bytes(&mut buffer))?;
    let mut other = Buffer::new();
    Ok(contains(text.bytes(&mut other), &elements))
}

/// Whether a text is one of some elements.
fn contains<A: Allocator>(text: &[u8], elements: &[Value<A>]) -> bool
    ensures { result ≡ meant.contains text.now elements.now }
{
    elements.iter().any(|element| element.as_slice() == text)
}

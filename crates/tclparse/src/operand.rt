//! What formulas borrow from the grammar of words (expr(n), operands).

ghost use Rattle.std.specs.Prelude.{◌≡◌, ◌<◌, ◌≤◌, length, IfOk, IfSome};
ghost use Rattle.tclparse.specs.Tree.{Parts, no_parts, bytes_then};
ghost use Rattle.tclparse.specs.View.{part_view, parts_then};
ghost use Rattle.tclparse.specs.FormulaReads.{ReadsQuoted, ReadsInBraces, ReadsSubstitution};

use crate::braces::fold_lines;
use crate::error::ReadError;
use crate::fault::Fault;
use crate::piece::{Piece, Place, next_part};
use crate::read::{literal_element, literal_parts, read_bracket, read_element, read_parts};
use crate::shared::{Shared, shared};
use crate::tree::Part;
use memory::NoMemory;
use std::alloc::Allocator;
use std::rc::Rc;
use tcltext::{Value, braces};

/// The parts that stand for exactly this text: one literal, or none where it is empty.
///
/// # Errors
/// `NoMemory` where memory is refused.
pub fn literal<A: Allocator + Copy>(
    alloc: A,
    text: &[u8],
) -> Result<Rc<Vec<Part<A>, A>, A>, NoMemory>
    ensures { IfOk result (λ ps. parts_then ps.value.items no_parts
        ≡ bytes_then text.now no_parts) }
{
    let value = Value::word(alloc, text)?;
    literal_parts(alloc, value)
}

/// The parts that the text begins with, its opening quote already read, up to the next quote, and
/// the text after that quote. At most `depth` more brackets and indexes may be open.
///
/// # Errors
/// The fault of the parts, or `OpenQuote` where no quote follows; or memory was refused.
pub fn quoted<A: Allocator + Copy>(
    alloc: A,
    depth: u32,
    text: &[u8],
) -> Result<(Rc<Vec<Part<A>, A>, A>, &[u8]), ReadError>
    ensures tree { ReadsQuoted depth text.now result }
    ensures shorter { IfOk result (λ r. length r.1.now ≤ length text.now) }
{
    let (parts, end) = read_parts(alloc, Place::Quotes, depth, text)?;
    match end {
        [] => Err(ReadError::Fault(Fault::OpenQuote)),
        [_, rest @ ..] => Ok((parts, rest)),
    }
}

/// The parts that stand for the value of the text, its open brace already read, up to the matching
/// brace, and the text after that brace.
///
/// # Errors
/// `OpenBrace` where no brace matches; or memory was refused.
pub fn braced<A: Allocator + Copy>(
    alloc: A,
    text: &[u8],
) -> Result<(Rc<Vec<Part<A>, A>, A>, &[u8]), ReadError>
    ensures tree { ReadsInBraces text.now result }
    ensures shorter { IfOk result (λ r. length r.1.now ≤ length text.now) }
{
    let Some((content, rest)) = braces::split(text) else {
        return Err(ReadError::Fault(Fault::OpenBrace));
    };
    let bytes = fold_lines(alloc, content)?;
    let value = Value::new(alloc, bytes)?;
    let parts = literal_parts(alloc, value)?;
    Ok((parts, rest))
}

// The list that holds only this part.
fn one_part<A: Allocator + Copy>(alloc: A, part: Part<A>) -> Result<Shared<Part<A>, A>, NoMemory>
    ensures { IfOk result (λ ps. parts_then ps.value.items no_parts ≡ part_view part no_parts) }
{
    let mut parts = Vec::new(alloc);
    parts.push(part)?;
    shared(alloc, parts)
}

/// The variable, element or script that the text begins with, at a `$` or `[`, and the text after
/// it; `None` where the text begins with none of them. At most `depth` more brackets and indexes
/// may be open.
///
/// # Errors
/// The fault of the variable, element or script; or memory was refused.
pub fn substitution<A: Allocator + Copy>(
    alloc: A,
    depth: u32,
    text: &[u8],
) -> Result<Option<(Rc<Vec<Part<A>, A>, A>, &[u8])>, ReadError>
    ensures tree { ReadsSubstitution depth text.now result }
    ensures shorter { IfOk result (λ o. IfSome o (λ r. length r.1.now < length text.now)) }
{
    let (part, rest) = match next_part(depth, text) {
        Piece::End => return Ok(None),
        Piece::Byte(_, _) => return Ok(None),
        Piece::Fault(fault) => return Err(ReadError::Fault(fault)),
        Piece::Name(name, rest) => (Part::Variable(Value::from_slice(alloc, name)?), rest),
        Piece::Index(name, inner) => read_element(alloc, depth - 1, name, inner)?,
        Piece::Element(name, index, rest) => (literal_element(alloc, name, index)?, rest),
        Piece::Bracket(inner) => read_bracket(alloc, depth - 1, inner)?,
    };
    let parts = one_part(alloc, part)?;
    Ok(Some((parts, rest)))
}

//! Operands that have no operand in them.

ghost use Rattle.std.specs.Prelude.{◌<◌, length, IfOk, ℕ};
ghost use Rattle.formulas.specs.Seen.{leaf_of, LeavesLess};
ghost use Rattle.formulas.specs.Reads.{ReadsLeaf};

use crate::error::ReadError;
use crate::fault::Fault;
use crate::piece::Leaf;
use crate::tree::Formula;
use std::alloc::Allocator;
use tclparse::operand;
use tcltext::Value;

/// The formula of the leaf that begins so, and the text after it. `depth` is how many more brackets
/// and indexes may be open.
pub(crate) fn read_leaf<'a, A: Allocator + Copy>(
    alloc: A,
    depth: u32,
    leaf: Leaf<'a>,
) -> Result<(Formula<A>, &'a [u8]), ReadError>
    ensures tree { ReadsLeaf depth (leaf_of leaf.entry) result }
    ensures shorter { (n : ℕ) → LeavesLess leaf.entry n → IfOk result (λ r. length r.1.now < n) }
{
    match leaf {
        Leaf::Fault(fault) => Err(ReadError::Fault(fault)),
        Leaf::Numeral(spelling, rest) => {
            let value = Value::word(alloc, spelling)?;
            Ok((Formula::Numeral(value), rest))
        }
        Leaf::Word(word, rest) => {
            let parts = operand::literal(alloc, word)?;
            Ok((Formula::Text(parts), rest))
        }
        Leaf::Quotes(inner) => {
            let (parts, rest) = operand::quoted(alloc, depth, inner)?;
            Ok((Formula::Text(parts), rest))
        }
        Leaf::Braces(inner) => {
            let (parts, rest) = operand::braced(alloc, inner)?;
            Ok((Formula::Text(parts), rest))
        }
        Leaf::Substitution(text) => match operand::substitution(alloc, depth, text)? {
            Some((parts, rest)) => Ok((Formula::Text(parts), rest)),
            None => Err(ReadError::Fault(Fault::Syntax)),
        },
    }
}

//! One pass over the text, from left to right.

ghost use Rattle.std.specs.Prelude.{◌≡◌, ◌<◌, length, IfOk};
ghost use Rattle.formulas.specs.View.{formula_of};
ghost use Rattle.formulas.specs.Reads.{ReadsOperand, ReadsWhole, ReadsChoice, ReadsArguments};

use crate::error::ReadError;
use crate::following::{behind_comma, close, following};
use crate::group::group;
use crate::leaf::read_leaf;
use crate::opening::opening;
use crate::piece::{Following, Opening};
use crate::tree::{Choice, Formula, Link};
use std::alloc::Allocator;
use std::rc::Rc;
use tclparse::Function;

// Reads an operand, that is, what stands between operators, and gives the text after it.
#[cycle(read)]
fn read_operand<A: Allocator + Copy>(
    alloc: A,
    depth: u32,
    text: &[u8],
) -> Result<(Formula<A>, &[u8]), ReadError>
    ensures tree { ReadsOperand depth text.now result }
    ensures shorter { IfOk result (λ r. length r.1.now < length text.now) }
{
    match opening(depth, text) {
        Opening::Leaf(leaf) => read_leaf(alloc, depth, leaf),
        Opening::Prefix(operator, inner) => {
            let (operand, rest) = read_operand(alloc, depth - 1, inner)?;
            let operand = Rc::new(alloc, operand)?;
            Ok((Formula::Prefix(operator, operand), rest))
        }
        Opening::Parenthesis(inner) => {
            let (formula, end) = read_whole(alloc, depth - 1, inner)?;
            let rest = close(b')', end)?;
            Ok((formula, rest))
        }
        Opening::Call(function, inner) => {
            let (arguments, rest) = read_arguments(alloc, depth - 1, function, inner)?;
            Ok((Formula::Call(function, arguments), rest))
        }
    }
}

/// Reads a formula up to where no operator follows, and gives the text from there on. `depth` is
/// how many more brackets, indexes, parentheses, calls, prefixes and choices may be open.
#[cycle(read)]
pub(crate) fn read_whole<A: Allocator + Copy>(
    alloc: A,
    depth: u32,
    text: &[u8],
) -> Result<(Formula<A>, &[u8]), ReadError>
    ensures tree { ReadsWhole depth text.now result }
    ensures shorter { IfOk result (λ r. length r.1.now < length text.now) }
{
    let (first, behind) = read_operand(alloc, depth, text)?;
    let mut links = Vec::new(alloc);
    let mut rest = behind;
    loop {
        match following(depth, rest) {
            Following::Infix(operator, inner) => {
                let (operand, behind) = read_operand(alloc, depth, inner)?;
                links.push(Link { operator, operand })?;
                rest = behind;
            }
            Following::Choice(inner) => {
                let test = group(alloc, first, links)?;
                return read_choice(alloc, test, depth - 1, inner);
            }
            Following::End(end) => {
                let formula = group(alloc, first, links)?;
                return Ok((formula, end));
            }
            Following::Fault(fault) => return Err(ReadError::Fault(fault)),
        }
    }
}

// Reads, after a question mark, the two formulas between which the test chooses.
#[cycle(read)]
fn read_choice<A: Allocator + Copy>(
    alloc: A,
    test: Formula<A>,
    depth: u32,
    text: &[u8],
) -> Result<(Formula<A>, &[u8]), ReadError>
    ensures tree { ReadsChoice (formula_of test) depth text.now result }
    ensures shorter { IfOk result (λ r. length r.1.now < length text.now) }
{
    let (yes, end) = read_whole(alloc, depth, text)?;
    let inner = close(b':', end)?;
    let (no, rest) = read_whole(alloc, depth, inner)?;
    let choice = Rc::new(alloc, Choice { test, yes, no })?;
    Ok((Formula::Choice(choice), rest))
}

// Reads, after a function's opening parenthesis, its arguments up to the closing one.
#[cycle(read)]
fn read_arguments<A: Allocator + Copy>(
    alloc: A,
    depth: u32,
    function: Function,
    text: &[u8],
) -> Result<(Rc<Vec<Formula<A>, A>, A>, &[u8]), ReadError>
    ensures tree { ReadsArguments depth function text.now result }
    ensures shorter { IfOk result (λ r. length r.1.now < length text.now) }
{
    let mut arguments = Vec::new(alloc);
    let mut rest = text;
    loop {
        let (argument, end) = read_whole(alloc, depth, rest)?;
        arguments.push(argument)?;
        match behind_comma(function, end) {
            Some(inner) => rest = inner,
            None => {
                let behind = close(b')', end)?;
                let arguments = Rc::new(alloc, arguments)?;
                return Ok((arguments, behind));
            }
        }
    }
}

//! What a text of the code is read as: its script, which runs one level deeper, or its value as a
//! formula.

ghost use Rattle.std.specs.Prelude.{◌≡◌, ◌-◌, IfOk};
ghost use Rattle.machine.specs.Frames.{stack};
ghost use Rattle.machine.specs.Inner.{PutsScript, PutsValue};
ghost use Rattle.steps.specs.View.{text_in};

use crate::frame::Frame;
use acts::NoMemory;
use code::{Entry, Made};
use formulas::ReadError;
use kept::{Kept, KeptFormulas};
use nesting::formula::no_formula;
use state::Outcome;
use state::outcome::raised;
use std::alloc::Allocator;
use tcltext::Value;

/// Puts the script of a text on top of the frames, and gives the outcome by which it begins. The
/// text is the first of these words, and stands in a code in which so many levels may still nest,
/// one of them that of the script.
pub(crate) fn put_script<A: Allocator + Copy>(
    kept: &mut Kept<A>,
    frames: &mut Vec<Frame<A>, A>,
    words: &[Value<A>],
    levels: u8,
) -> Result<Outcome<A>, NoMemory>
    ensures { IfOk result (λ outcome. PutsScript outcome (stack frames.old) (stack frames.new)
        (text_in words.now) (levels - 1)) }
{
    let script = kept.get(text_of(words))?;
    let script = Entry::Made(Made::Script(script));
    Frame::Code(script, levels.saturating_sub(1)).push(frames)?;
    Ok(Ok(Value::empty()))
}

/// Puts the formula of a text on top of the frames, in which so many levels may still nest, and
/// gives the outcome by which it begins, or the error that the text is none. The text is the first
/// of these words.
pub(crate) fn put_value<A: Allocator + Copy>(
    alloc: A,
    formulas: &mut KeptFormulas<A>,
    frames: &mut Vec<Frame<A>, A>,
    words: &[Value<A>],
    levels: u8,
) -> Result<Outcome<A>, NoMemory>
    ensures { IfOk result (λ outcome. PutsValue outcome (stack frames.old) (stack frames.new)
        (text_in words.now) levels) }
{
    match formulas.read(text_of(words)) {
        Ok(formula) => {
            let formula = Entry::Made(Made::Formula(formula));
            Frame::Code(formula, levels).push(frames)?;
            Ok(Ok(Value::empty()))
        }
        Err(ReadError::Fault(fault)) => Ok(raised(alloc, no_formula(fault))?),
        Err(ReadError::Memory(refusal)) => Err(refusal),
    }
}

/// The first of these words, or the empty text where there is none.
fn text_of<A: Allocator>(words: &[Value<A>]) -> &[u8]
    ensures { result.now ≡ text_in words.now }
{
    match words {
        [text, ..] => text.as_slice(),
        [] => &[],
    }
}

//! The scripts and the expressions in the words of commands: each is read, and its code put, or
//! left as text.

ghost use Rattle.std.specs.Prelude.{OnOk};
ghost use Rattle.code.specs.Blocks.{BodyBlock, ExpressionBlock};

use crate::emit::emit_script;
use crate::formula::emit_formula;
use crate::instruction::Instruction;
use crate::nest::Nest;
use formulas::{Formula, ReadError};
use memory::NoMemory;
use std::alloc::Allocator;
use tclparse::Script;
use tcltext::Value;

/// Puts the code of a script that is a word: it runs one level deeper, and so many words stand
/// after it.
pub(crate) fn emit_body<A: Allocator + Copy, N: Nest<A>>(
    code: &mut Vec<Instruction<A>, A>,
    text: &Value<A>,
    after: usize,
    nest: &N,
) -> Result<(), NoMemory>
    ensures { OnOk result (BodyBlock code.old.items code.new.items text.now) }
{
    let script = Script::read(*code.allocator(), text.as_slice())?;
    code.push(Instruction::Body(after))?;
    emit_script(code, &script, nest)?;
    code.push(Instruction::Leave)?;
    Ok(())
}

/// Leaves such a script as text.
pub(crate) fn leave_body<A: Allocator + Copy>(
    code: &mut Vec<Instruction<A>, A>,
    text: &Value<A>,
    after: usize,
) -> Result<(), NoMemory>
    ensures { OnOk result (BodyBlock code.old.items code.new.items text.now) }
{
    let text = text.share()?;
    code.push(Instruction::Run(text, after))?;
    Ok(())
}

/// Puts the code of an expression that is a word, and leaves it as text where it is no formula.
pub(crate) fn emit_expression<A: Allocator + Copy, N: Nest<A>>(
    code: &mut Vec<Instruction<A>, A>,
    text: &Value<A>,
    nest: &N,
) -> Result<(), NoMemory>
    ensures { OnOk result (ExpressionBlock code.old.items code.new.items text.now) }
{
    match Formula::read(*code.allocator(), text.as_slice()) {
        Ok(formula) => Ok(emit_formula(code, &formula, nest)?),
        Err(ReadError::Fault(_)) => Ok(leave_expression(code, text)?),
        Err(ReadError::Memory(refusal)) => Err(refusal),
    }
}

/// Leaves such an expression as text.
pub(crate) fn leave_expression<A: Allocator + Copy>(
    code: &mut Vec<Instruction<A>, A>,
    text: &Value<A>,
) -> Result<(), NoMemory>
    ensures { OnOk result (ExpressionBlock code.old.items code.new.items text.now) }
{
    let text = text.share()?;
    code.push(Instruction::Evaluate(text))?;
    Ok(())
}

//! The code of a whole script, of a whole formula, and of the words of an argument in braces.

ghost use Rattle.std.specs.Prelude.{length, option_map, IfOk};
ghost use Rattle.code.specs.Code.{ScriptAt};
ghost use Rattle.code.specs.CodeOf.{IsCodeOfArgument, IsCodeOfFormula};
ghost use Rattle.formulas.specs.View.{formula_of};
ghost use Rattle.tclparse.specs.Seen.{fault_of};
ghost use Rattle.tclparse.specs.Tree.{no_words};
ghost use Rattle.tclparse.specs.View.{commands_of, words_then};

use crate::emit::{emit_argument, emit_script};
use crate::formula::emit_formula;
use crate::instruction::Instruction;
use crate::nest::NESTED;
use formulas::Formula;
use memory::NoMemory;
use std::alloc::Allocator;
use tclparse::{Script, Word};

/// The code of a script: its commands one after the other, and its fault, if it has one.
///
/// # Errors
/// `NoMemory`, after which nothing stays allocated.
pub fn code_of<A: Allocator + Copy>(
    alloc: A,
    script: &Script<A>,
) -> Result<Vec<Instruction<A>, A>, NoMemory>
    ensures { IfOk result (λ code. ScriptAt code.items 0 (commands_of script.now.commands)
        (option_map fault_of script.now.fault) (length code.items)) }
{
    let mut code = Vec::new(alloc);
    emit_script(&mut code, script, &NESTED)?;
    Ok(code)
}

/// The code of a formula that is run by itself: what is on top is dropped, and then the formula's
/// value is put there.
///
/// # Errors
/// `NoMemory`, after which nothing stays allocated.
pub fn formula_code<A: Allocator + Copy>(
    alloc: A,
    formula: &Formula<A>,
) -> Result<Vec<Instruction<A>, A>, NoMemory>
    ensures { IfOk result (λ code. IsCodeOfFormula code.items (formula_of formula.now)) }
{
    let mut code = Vec::new(alloc);
    code.push(Instruction::Discard)?;
    emit_formula(&mut code, formula, &NESTED)?;
    Ok(code)
}

/// The code of the words of an argument in braces, which is run by itself: they are put after the
/// name of their command, which is on top, and give its branches.
///
/// # Errors
/// `NoMemory`, after which nothing stays allocated.
pub fn argument_code<A: Allocator + Copy>(
    alloc: A,
    words: &[Word<A>],
) -> Result<Vec<Instruction<A>, A>, NoMemory>
    ensures { IfOk result (λ code. IsCodeOfArgument code.items (words_then words.now no_words)) }
{
    let mut code = Vec::new(alloc);
    emit_argument(&mut code, words, &NESTED)?;
    Ok(code)
}

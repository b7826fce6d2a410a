//! The code of a formula is put after the code that stands there already.

ghost use Rattle.std.specs.Prelude.{◌≡◌, length, slice_set, OnOk};
ghost use Rattle.code.specs.Blocks.{ArgumentsBlock, FormulaBlock, LinkBlock, LinksBlock, RightBlock};
ghost use Rattle.formulas.specs.View.{choice_view, formula_of, formulas_then, link_view, links_then};
ghost use Rattle.tclparse.specs.Formula.{no_formulas, no_links};

use crate::emit::emit_parts;
use crate::instruction::Instruction;
use crate::nest::Nest;
use formulas::{Choice, Formula, Link};
use memory::NoMemory;
use std::alloc::Allocator;
use tclparse::Infix;

/// Fills a place of the code.
pub(crate) fn fill<A: Allocator>(
    code: &mut Vec<Instruction<A>, A>,
    place: usize,
    it: Instruction<A>,
)
    ensures { code.new.items ≡ slice_set code.old.items place it }
{
    if let Some(hole) = code.get_mut(place) {
        *hole = it;
    }
}

/// Puts code that puts the value of a formula on top.
#[cycle(emit_formula)]
pub(crate) fn emit_formula<A: Allocator + Copy, N: Nest<A>>(
    code: &mut Vec<Instruction<A>, A>,
    formula: &Formula<A>,
    nest: &N,
) -> Result<(), NoMemory>
    ensures { OnOk result (FormulaBlock code.old.items code.new.items (formula_of formula.now)) }
{
    match formula {
        Formula::Numeral(digits) => {
            let digits = digits.share()?;
            code.push(Instruction::Numeral(digits))?;
        }
        Formula::Text(parts) => emit_parts(code, parts, nest)?,
        Formula::Call(function, arguments) => {
            emit_arguments(code, arguments, nest)?;
            code.push(Instruction::Call(*function, arguments.len()))?;
        }
        Formula::Prefix(operator, operand) => {
            emit_formula(code, operand, nest)?;
            code.push(Instruction::Prefix(*operator))?;
        }
        Formula::Row(row) => {
            emit_formula(code, &row.first, nest)?;
            emit_links(code, &row.links, nest)?;
        }
        Formula::Choice(choice) => emit_choice(code, choice, nest)?,
    }
    Ok(())
}

/// Puts code that puts the values of a function's arguments on top.
#[cycle(emit_formula)]
fn emit_arguments<A: Allocator + Copy, N: Nest<A>>(
    code: &mut Vec<Instruction<A>, A>,
    arguments: &[Formula<A>],
    nest: &N,
) -> Result<(), NoMemory>
    ensures { OnOk result (ArgumentsBlock code.old.items code.new.items
        (formulas_then arguments.now no_formulas) (length arguments.now)) }
{
    for argument in arguments {
        emit_formula(code, argument, nest)?;
    }
    Ok(())
}

/// Puts code that puts the value of a row in the place of that of its first operand.
#[cycle(emit_formula)]
fn emit_links<A: Allocator + Copy, N: Nest<A>>(
    code: &mut Vec<Instruction<A>, A>,
    links: &[Link<A>],
    nest: &N,
) -> Result<(), NoMemory>
    ensures { OnOk result (LinksBlock code.old.items code.new.items
        (links_then links.now no_links)) }
{
    for link in links {
        emit_link(code, link, nest)?;
    }
    Ok(())
}

/// Puts code that puts the value of an operator in the place of that of its left operand.
#[cycle(emit_formula)]
fn emit_link<A: Allocator + Copy, N: Nest<A>>(
    code: &mut Vec<Instruction<A>, A>,
    link: &Link<A>,
    nest: &N,
) -> Result<(), NoMemory>
    ensures { OnOk result (LinkBlock code.old.items code.new.items (link_view link.now)) }
{
    let start = code.len();
    match link.operator {
        Infix::Both(operator) => {
            emit_formula(code, &link.operand, nest)?;
            code.push(Instruction::Binary(operator))?;
        }
        Infix::AndAlso => {
            emit_right(code, &link.operand, nest)?;
            fill(code, start, Instruction::AndAlso(code.len()));
        }
        Infix::OrElse => {
            emit_right(code, &link.operand, nest)?;
            fill(code, start, Instruction::OrElse(code.len()));
        }
    }
    Ok(())
}

/// Puts a hole, and after it code that puts the truth value of a right operand on top.
#[cycle(emit_formula)]
fn emit_right<A: Allocator + Copy, N: Nest<A>>(
    code: &mut Vec<Instruction<A>, A>,
    operand: &Formula<A>,
    nest: &N,
) -> Result<(), NoMemory>
    ensures { OnOk result (RightBlock code.old.items code.new.items (formula_of operand.now)) }
{
    code.push(Instruction::Hole)?;
    emit_formula(code, operand, nest)?;
    code.push(Instruction::Truth)?;
    Ok(())
}

/// Puts code that puts the value of a choice on top.
#[cycle(emit_formula)]
fn emit_choice<A: Allocator + Copy, N: Nest<A>>(
    code: &mut Vec<Instruction<A>, A>,
    choice: &Choice<A>,
    nest: &N,
) -> Result<(), NoMemory>
    ensures { OnOk result (FormulaBlock code.old.items code.new.items (choice_view choice.now)) }
{
    emit_formula(code, &choice.test, nest)?;
    let unless = code.len();
    code.push(Instruction::Hole)?;
    emit_formula(code, &choice.yes, nest)?;
    let jump = code.len();
    code.push(Instruction::Hole)?;
    fill(code, unless, Instruction::Unless(code.len()));
    emit_formula(code, &choice.no, nest)?;
    fill(code, jump, Instruction::Jump(code.len()));
    Ok(())
}

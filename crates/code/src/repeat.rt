//! The code of `while` and of `for` whose words are texts (while(n), for(n)).

ghost use Rattle.std.specs.Prelude.{◌≡◌, [], ◌∷◌, ℕ, List, None, Some, codes, IfOk, IfSome, OnOk};
ghost use Rattle.code.specs.Blocks.{ItsBlock, StepBlock, TurnsBlock};
ghost use Rattle.code.specs.Code.{HasFormula};
ghost use Rattle.code.specs.Doing.{Tells};
ghost use Rattle.code.specs.Repeat.{for_args};

use crate::formula::fill;
use crate::instruction::Instruction;
use crate::nest::Nest;
use formulas::{Formula, ReadError};
use memory::NoMemory;
use std::alloc::Allocator;
use tcltext::Value;

/// The turns of a loop: its test and its body, and the script that runs after each turn, if there
/// is one.
#[derive(Drop)]
pub(crate) struct Turns<A: Allocator> {
    test: Value<A>,
    body: Value<A>,
    step: Option<Value<A>>,
}

/// A `for`: the script that runs before its turns, and these.
#[derive(Drop)]
pub(crate) struct For<A: Allocator> {
    start: Value<A>,
    turns: Turns<A>,
}

/// Whether a text is a formula (expr(n)).
pub(crate) fn has_formula<A: Allocator + Copy>(alloc: A, text: &Value<A>) -> Result<bool, NoMemory>
    ensures { IfOk result (λ is. Tells is text.now) }
{
    match Formula::read(alloc, text.as_slice()) {
        Ok(_formula) => Ok(true),
        Err(ReadError::Fault(_fault)) => Ok(false),
        Err(ReadError::Memory(refusal)) => Err(refusal),
    }
}

/// The test of a loop, where it is a formula.
fn test_of<A: Allocator + Copy>(alloc: A, text: &Value<A>) -> Result<Option<Value<A>>, NoMemory>
    ensures { IfOk result (λ read. IfSome read (λ test.
        (test ≡ text.now) × HasFormula test)) }
{
    if has_formula(alloc, text)? {
        Ok(Some(text.share()?))
    } else {
        Ok(None)
    }
}

/// The turns of a loop with this test; `None` where that is no formula.
fn turns_of<A: Allocator + Copy>(
    alloc: A,
    test: &Value<A>,
    body: &Value<A>,
    step: Option<Value<A>>,
) -> Result<Option<Turns<A>>, NoMemory>
    ensures { IfOk result (λ read. IfSome read (λ own. (own.step ≡ step) × HasFormula own.test ×
        (own.test ≡ test.now) × (own.body ≡ body.now))) }
{
    let Some(test) = test_of(alloc, test)? else {
        return Ok(None);
    };
    let body = body.share()?;
    Ok(Some(Turns { test, body, step }))
}

/// Reads the words after `while`. `None` where they are not a test and a body, or where the test is
/// no formula.
pub(crate) fn read_while<A: Allocator + Copy>(
    alloc: A,
    args: &[Value<A>],
) -> Result<Option<Turns<A>>, NoMemory>
    ensures { IfOk result (λ read. IfSome read (λ own. (own.step ≡ None) × HasFormula own.test ×
        (args.now ≡ own.test ∷ own.body ∷ []))) }
{
    let [test, body] = args else {
        return Ok(None);
    };
    Ok(turns_of(alloc, test, body, None)?)
}

/// Reads the words after `for`. `None` where they are not four, or where the test is no formula.
pub(crate) fn read_for<A: Allocator + Copy>(
    alloc: A,
    args: &[Value<A>],
) -> Result<Option<For<A>>, NoMemory>
    ensures { IfOk result (λ read. IfSome read (λ own. (step : List ℕ) ×
        (own.turns.step ≡ Some step) × HasFormula own.turns.test ×
        (args.now ≡ for_args own step))) }
{
    let [start, test, step, body] = args else {
        return Ok(None);
    };
    let Some(turns) = turns_of(alloc, test, body, Some(step.share()?))? else {
        return Ok(None);
    };
    let start = start.share()?;
    Ok(Some(For { start, turns }))
}

/// Puts the script that runs after each turn, and the end of a turn.
fn emit_step<A: Allocator + Copy, N: Nest<A>>(
    code: &mut Vec<Instruction<A>, A>,
    step: &Value<A>,
    nest: &N,
) -> Result<(), NoMemory>
    ensures { OnOk result (StepBlock code.old.items code.new.items (Some step.now)) }
{
    code.push(Instruction::Step)?;
    nest.put_body(code, step, 1)?;
    code.push(Instruction::EndTurn)?;
    Ok(())
}

/// Puts what stands after the body of a turn.
fn emit_end<A: Allocator + Copy, N: Nest<A>>(
    code: &mut Vec<Instruction<A>, A>,
    step: &Option<Value<A>>,
    nest: &N,
) -> Result<(), NoMemory>
    ensures { OnOk result (StepBlock code.old.items code.new.items step.now) }
{
    match step {
        Some(step) => Ok(emit_step(code, step, nest)?),
        None => Ok(code.push(Instruction::EndTurn)?),
    }
}

/// Puts the code of the turns of a loop: its body, what runs after that, and its test, with which
/// it begins.
pub(crate) fn emit_turns<A: Allocator + Copy, N: Nest<A>>(
    code: &mut Vec<Instruction<A>, A>,
    own: &Turns<A>,
    nest: &N,
) -> Result<(), NoMemory>
    ensures { HasFormula own.now.test → OnOk result (TurnsBlock code.old.items code.new.items
        own.now.test own.now.step own.now.body) }
{
    let jump = code.len();
    code.push(Instruction::Hole)?;
    let body = code.len();
    nest.put_body(code, &own.body, 0)?;
    let end = code.len();
    emit_end(code, &own.step, nest)?;
    fill(code, jump, Instruction::Jump(code.len()));
    nest.put_expression(code, &own.test)?;
    code.push(Instruction::Turn(body, end))?;
    code.push(Instruction::Text(Value::empty()))?;
    Ok(())
}

/// Puts the code of a `for`: its start, whose value is dropped, and its turns.
pub(crate) fn emit_for<A: Allocator + Copy, N: Nest<A>>(
    code: &mut Vec<Instruction<A>, A>,
    own: &For<A>,
    nest: &N,
) -> Result<(), NoMemory>
    ensures { (step : List ℕ) → own.now.turns.step ≡ Some step → HasFormula own.now.turns.test →
        OnOk result (ItsBlock (codes "for") code.old.items code.new.items
        (for_args own.now step)) }
{
    nest.put_body(code, &own.start, 3)?;
    code.push(Instruction::Discard)?;
    emit_turns(code, &own.turns, nest)?;
    Ok(())
}

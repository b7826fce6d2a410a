//! What a command does that begins by its words, and the code of that: what stands in the words is
//! left as text, which is read when it runs.

ghost use Rattle.std.specs.Prelude.{◌≡◌, ◌++◌, length, IfOk, OnOk};
ghost use Rattle.code.specs.Branching.{branch_of, branches_of};
ghost use Rattle.code.specs.Doing as definition;
ghost use Rattle.code.specs.Doing.{IsCodeOfDoing, branch_code, doing_of, last_code, taker};

use crate::branches::{Branch, Branches};
use crate::instruction::Instruction;
use crate::repeat::has_formula;
use memory::NoMemory;
use std::alloc::Allocator;
use tcltext::Value;

/// What a command does that begins by its words.
#[derive(Drop)]
pub enum Doing<A: Allocator> {
    /// `if` with these branches (if(n)).
    If(Branches<A>),
    /// `while` (while(n)).
    While {
        test: Value<A>,
        body: Value<A>,
    },
    /// `for` (for(n)).
    For {
        start: Value<A>,
        test: Value<A>,
        step: Value<A>,
        body: Value<A>,
    },
    /// `catch`, whose variable takes the value that the script ended with, if there is one
    /// (catch(n)).
    Catch {
        body: Value<A>,
        variable: Option<Value<A>>,
    },
}

impl<A: Allocator + Copy> Doing<A> {
    /// The code of this, after the value on top is dropped.
    pub(crate) fn into_code(self, alloc: A) -> Result<Vec<Instruction<A>, A>, NoMemory>
        ensures { IfOk result (λ code. IsCodeOfDoing code.items (doing_of self)) }
    {
        match self {
            Doing::If(own) => Ok(if_code(alloc, own)?),
            Doing::While { test, body } => Ok(while_code(alloc, test, body)?),
            Doing::For {
                start,
                test,
                step,
                body,
            } => Ok(for_code(alloc, start, test, step, body)?),
            Doing::Catch { body, variable } => Ok(catch_code(alloc, body, variable)?),
        }
    }
}

/// The code of `if`: its branches, of which each jumps to the end, and then the last body, or the
/// empty text.
fn if_code<A: Allocator + Copy>(
    alloc: A,
    own: Branches<A>,
) -> Result<Vec<Instruction<A>, A>, NoMemory>
    ensures { IfOk result (λ code. IsCodeOfDoing code.items (definition.If (branches_of own))) }
{
    let Branches {
        mut tests,
        otherwise,
    } = own;
    let end = tests.len().saturating_mul(4).saturating_add(2);
    let mut code = Vec::with_capacity(alloc, end)?;
    code.push(Instruction::Discard)?;
    'branches: while let Some(branch) = tests.pop_front() {
        put_branch(&mut code, branch, end)?;
    }
    put_last(&mut code, otherwise)?;
    Ok(code)
}

/// Puts the code of a branch: its test, a jump past its body where that does not hold, its body,
/// and a jump to the end.
fn put_branch<A: Allocator + Copy>(
    code: &mut Vec<Instruction<A>, A>,
    branch: Branch<A>,
    end: usize,
) -> Result<(), NoMemory>
    ensures { OnOk result (code.new.items ≡ code.old.items
        ++ branch_code (length code.old.items) end (branch_of branch)) }
{
    let Branch {
        test,
        body,
        after: _,
    } = branch;
    let next = code.len().saturating_add(4);
    code.push(Instruction::Evaluate(test))?;
    code.push(Instruction::Unless(next))?;
    code.push(Instruction::Run(body, 0))?;
    code.push(Instruction::Jump(end))?;
    Ok(())
}

/// Puts the last body, or the empty text where there is none.
fn put_last<A: Allocator + Copy>(
    code: &mut Vec<Instruction<A>, A>,
    otherwise: Option<Value<A>>,
) -> Result<(), NoMemory>
    ensures { OnOk result (code.new.items ≡ code.old.items ++ last_code otherwise) }
{
    match otherwise {
        Some(body) => code.push(Instruction::Run(body, 0))?,
        None => code.push(Instruction::Text(Value::empty()))?,
    }
    Ok(())
}

/// The code of `while`: a jump to the test, the body, the end of a turn, the test, and the empty
/// text after the last turn. A test that is no formula stands alone.
fn while_code<A: Allocator + Copy>(
    alloc: A,
    test: Value<A>,
    body: Value<A>,
) -> Result<Vec<Instruction<A>, A>, NoMemory>
    ensures { IfOk result (λ code. IsCodeOfDoing code.items (definition.While test body)) }
{
    let is_formula = has_formula(alloc, &test)?;
    let mut code = Vec::with_capacity(alloc, 7)?;
    code.push(Instruction::Discard)?;
    if !is_formula {
        code.push(Instruction::Evaluate(test))?;
        return Ok(code);
    }
    code.push(Instruction::Jump(4))?;
    code.push(Instruction::Run(body, 0))?;
    code.push(Instruction::EndTurn)?;
    code.push(Instruction::Evaluate(test))?;
    code.push(Instruction::Turn(2, 3))?;
    code.push(Instruction::Text(Value::empty()))?;
    Ok(code)
}

/// The code of `for`: its start, and then turns as those of `while`, with the script that runs
/// after each turn.
fn for_code<A: Allocator + Copy>(
    alloc: A,
    start: Value<A>,
    test: Value<A>,
    step: Value<A>,
    body: Value<A>,
) -> Result<Vec<Instruction<A>, A>, NoMemory>
    ensures { IfOk result (λ code.
        IsCodeOfDoing code.items (definition.For start test step body)) }
{
    let is_formula = has_formula(alloc, &test)?;
    let mut code = Vec::with_capacity(alloc, 11)?;
    code.push(Instruction::Discard)?;
    code.push(Instruction::Run(start, 0))?;
    code.push(Instruction::Discard)?;
    if !is_formula {
        code.push(Instruction::Evaluate(test))?;
        return Ok(code);
    }
    code.push(Instruction::Jump(8))?;
    code.push(Instruction::Run(body, 0))?;
    code.push(Instruction::Step)?;
    code.push(Instruction::Run(step, 0))?;
    code.push(Instruction::EndTurn)?;
    code.push(Instruction::Evaluate(test))?;
    code.push(Instruction::Turn(4, 5))?;
    code.push(Instruction::Text(Value::empty()))?;
    Ok(code)
}

/// The code of `catch`: its script, and what is done with the value that it ended with, to which
/// every outcome leads.
fn catch_code<A: Allocator + Copy>(
    alloc: A,
    body: Value<A>,
    variable: Option<Value<A>>,
) -> Result<Vec<Instruction<A>, A>, NoMemory>
    ensures { IfOk result (λ code. IsCodeOfDoing code.items (definition.Catch body variable)) }
{
    let mut code = Vec::with_capacity(alloc, 5)?;
    code.push(Instruction::Discard)?;
    code.push(Instruction::Catch(4))?;
    code.push(Instruction::Run(body, 0))?;
    code.push(Instruction::EndCatch)?;
    code.push(taker_of(variable))?;
    Ok(code)
}

/// What is done with the value that the script of a `catch` ended with.
fn taker_of<A: Allocator>(variable: Option<Value<A>>) -> Instruction<A>
    ensures { result ≡ taker variable }
{
    match variable {
        Some(name) => Instruction::Store(name),
        None => Instruction::Discard,
    }
}

//! The code of `catch` whose words are texts (catch(n)).

ghost use Rattle.std.specs.Prelude.{◌≡◌, ◌∷◌, ℕ, List, codes, IfOk, IfSome, OnOk};
ghost use Rattle.code.specs.Blocks.{ItsBlock, TakenBlock};
ghost use Rattle.code.specs.Code.{IsTaker};

use crate::formula::fill;
use crate::instruction::Instruction;
use crate::nest::Nest;
use memory::NoMemory;
use std::alloc::Allocator;
use tclparse::variable_name;
use tcltext::Value;

/// A `catch`: its script, and the variable that takes the value that it ends with, if there is one.
#[derive(Drop)]
pub(crate) struct Catch<A: Allocator> {
    body: Value<A>,
    variable: Option<Value<A>>,
}

/// The variable that the words after the script name, if there is one; `None` where they are
/// neither that nor none.
fn variable_of<A: Allocator>(words: &[Value<A>]) -> Result<Option<Option<Value<A>>>, NoMemory>
    ensures { IfOk result (λ read. IfSome read (λ variable. IsTaker variable words.now)) }
{
    match words {
        [] => Ok(Some(None)),
        [name] if variable_name(name.as_slice()).is_ok() => Ok(Some(Some(name.share()?))),
        _ => Ok(None),
    }
}

/// Reads the words after `catch`. `None` where they are not a script, or where the word after that
/// names no variable.
pub(crate) fn read_catch<A: Allocator>(args: &[Value<A>]) -> Result<Option<Catch<A>>, NoMemory>
    ensures { IfOk result (λ read. IfSome read (λ own. (more : List (List ℕ)) ×
        IsTaker own.variable more × (args.now ≡ own.body ∷ more))) }
{
    let [script, more @ ..] = args else {
        return Ok(None);
    };
    let Some(variable) = variable_of(more)? else {
        return Ok(None);
    };
    let body = script.share()?;
    Ok(Some(Catch { body, variable }))
}

/// Puts what is done with the value that the script ended with.
fn emit_taker<A: Allocator + Copy>(
    code: &mut Vec<Instruction<A>, A>,
    variable: &Option<Value<A>>,
) -> Result<(), NoMemory>
    ensures { OnOk result (TakenBlock code.old.items code.new.items variable.now) }
{
    match variable {
        Some(name) => {
            let name = name.share()?;
            code.push(Instruction::Store(name))?;
        }
        None => code.push(Instruction::Discard)?,
    }
    Ok(())
}

/// Puts the code of a `catch`: its script, and what is done with the value that it ended with, to
/// which every outcome leads.
pub(crate) fn emit_catch<A: Allocator + Copy, N: Nest<A>>(
    code: &mut Vec<Instruction<A>, A>,
    own: &Catch<A>,
    nest: &N,
) -> Result<(), NoMemory>
    ensures { (more : List (List ℕ)) → IsTaker own.now.variable more →
        OnOk result (ItsBlock (codes "catch") code.old.items code.new.items
        (own.now.body ∷ more)) }
{
    let catch = code.len();
    code.push(Instruction::Hole)?;
    let after = usize::from(own.variable.is_some());
    nest.put_body(code, &own.body, after)?;
    code.push(Instruction::EndCatch)?;
    fill(code, catch, Instruction::Catch(code.len()));
    emit_taker(code, &own.variable)?;
    Ok(())
}

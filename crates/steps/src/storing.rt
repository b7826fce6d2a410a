//! A variable is written.

ghost use Rattle.std.specs.Prelude.{◌≡◌, ◌≤◌, IfOk};
ghost use Rattle.acts.specs.Flaw as flaw;
ghost use Rattle.state.specs.Prelude.{Status};
ghost use Rattle.steps.specs.Catch.{keeping};
ghost use Rattle.steps.specs.Handling.{fails};
ghost use Rattle.steps.specs.Storing.{storing};
ghost use Rattle.steps.specs.View.{did_of, spot_of, with_parts};
ghost use Rattle.tclparse.specs.Variable.{named};

use crate::handling::{fail_to_reach, failed};
use crate::progress::Progress;
use crate::spot::Spot;
use acts::{Fault, NoMemory};
use std::alloc::Allocator;
use tclparse::{Name, variable_name};
use tclstate::Scopes;
use tcltext::Value;

/// A word is refused that names no variable.
#[cold]
#[inline(never)]
fn refuse_name<A: Allocator + Copy>(alloc: A, spot: &mut Spot<A>) -> Result<Progress, NoMemory>
    ensures does { (s : Status) → IfOk result (λ progress.
        did_of progress spot.new s ≡ fails flaw.BadVariable (spot_of spot.old) s) }
    ensures place { spot.old.place ≤ spot.new.place }
{
    Ok(failed(alloc, spot, Fault::BadVariable)?)
}

/// Writes a value to the variable that is named.
pub(crate) fn store<A: Allocator + Copy>(
    alloc: A,
    spot: &mut Spot<A>,
    scopes: &mut Scopes<A>,
    word: &[u8],
    value: Value<A>,
) -> Result<Progress, NoMemory>
    ensures does { (s : Status) → IfOk result (λ progress.
        did_of progress spot.new (with_parts scopes.new s.procedures s.left s)
        ≡ storing (named word.now) value (spot_of spot.old)
        (with_parts scopes.old s.procedures s.left s)) }
    ensures place { spot.old.place ≤ spot.new.place }
{
    let Ok(Name { name, index }) = variable_name(word) else {
        return Ok(refuse_name(alloc, spot)?);
    };
    match scopes.set(alloc, name, index, value) {
        Ok(()) => Ok(Progress::GoesOn),
        Err(error) => Ok(fail_to_reach(alloc, spot, error, name, index)?),
    }
}

/// The variable of this name takes the value on top.
pub fn keep<A: Allocator + Copy>(
    alloc: A,
    spot: &mut Spot<A>,
    scopes: &mut Scopes<A>,
    word: &Value<A>,
) -> Result<Progress, NoMemory>
    ensures does { (s : Status) → IfOk result (λ progress.
        did_of progress spot.new (with_parts scopes.new s.procedures s.left s)
        ≡ keeping word.now (spot_of spot.old)
        (with_parts scopes.old s.procedures s.left s)) }
    ensures place { spot.old.place ≤ spot.new.place }
{
    let Some(value) = spot.operands.pop() else {
        return Ok(Progress::Stuck);
    };
    Ok(store(alloc, spot, scopes, word.as_slice(), value)?)
}

//! The variables of a script, as commands read and write them.

ghost use Rattle.std.specs.Prelude.{◌≡◌, IfOk, is_some, option_copied};
ghost use Rattle.state.specs.Prelude.{Status, FitsState};
ghost use Rattle.std.specs.List.{list_all};
ghost use Rattle.state.specs.Stores.{Stores, IsTold};
ghost use Rattle.state.specs.Variables as variables;
ghost use Rattle.tclparse.specs.Variable.{named};

use crate::state::State;
use acts::{Fault, NoMemory};
use std::alloc::Allocator;
use tclparse::variable_name;
use tclstate::ScopeError;
use tcltext::Value;

/// The name of the variable that holds the id in force (expect(1), spawn).
pub const SPAWN_ID: &[u8] = b"spawn_id";

/// A name as a script asks for it: `a`, or `a(i)`.
pub fn spelled<A: Allocator>(
    alloc: A,
    name: &[u8],
    index: Option<&[u8]>,
) -> Result<Vec<u8, A>, NoMemory>
    ensures { IfOk result (λ text.
        text.items ≡ variables.spelled name.now (option_copied index.entry)) }
{
    let mut text = Vec::new(alloc);
    text.extend_from_slice(name)?;
    if let Some(index) = index {
        text.push(b'(')?;
        text.extend_from_slice(index)?;
        text.push(b')')?;
    }
    Ok(text)
}

/// Whether each word names a variable or an element.
pub fn all_named<A: Allocator>(words: &[Value<A>]) -> bool
    ensures { result ≡ list_all (λ w. is_some (named w)) words.now }
{
    for word in words {
        if variable_name(word.as_slice()).is_err() {
            return false;
        }
    }
    true
}

/// The script's error where a variable could not be read or written.
pub fn trouble<A: Allocator>(
    alloc: A,
    error: ScopeError,
    name: &[u8],
    index: Option<&[u8]>,
) -> Result<Fault<A>, NoMemory>
    ensures { IfOk result (λ fault. IsTold fault error name.now (option_copied index.entry)) }
{
    let name = match error {
        ScopeError::NoMemory(refusal) => return Err(refusal),
        _ => spelled(alloc, name, index)?,
    };
    Ok(match error {
        ScopeError::NoVariable => Fault::NoVariable(name),
        ScopeError::IsArray => Fault::IsArray(name),
        ScopeError::NotArray => Fault::NotArray(name),
        _ => Fault::NoElement(name),
    })
}

/// Writes a variable, or answers the script's error where it can't be written; then nothing
/// changes.
pub fn store<A: Allocator + Copy>(
    alloc: A,
    state: &mut State<A>,
    name: &[u8],
    index: Option<&[u8]>,
    value: Value<A>,
) -> Result<Result<(), Fault<A>>, NoMemory>
    ensures stores { (s : Status) → FitsState state.old s →
        IfOk result (λ r. Stores r state.new s name.now (option_copied index.entry) value) }
    ensures left { state.new.left ≡ state.old.left }
{
    match state.scopes.set(alloc, name, index, value) {
        Ok(()) => Ok(Ok(())),
        Err(error) => Ok(Err(trouble(alloc, error, name, index)?)),
    }
}

/// What a variable that Expect's commands read holds: the local one, else the global one; an array
/// counts as unset (expect(1), introduction).
pub fn consulted<'a, A: Allocator + Copy>(state: &'a State<A>, name: &[u8]) -> Option<&'a Value<A>>
    ensures { option_copied result ≡ variables.consulted state.now.scopes name.now }
{
    match state.scopes.get(name, None) {
        Ok(value) => Some(value),
        Err(_) => state.scopes.get_global(name, None).ok(),
    }
}

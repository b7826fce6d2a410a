//! The variables that commands read and write.

ghost use Rattle.std.specs.Prelude.{◌≡◌, option_copied};
ghost use Rattle.acts.specs.Raise.{Answers};
ghost use Rattle.kinds.specs.Answers.{IsTroubled, Puts, PutsAll};
ghost use Rattle.kinds.specs.Variables as definition;
ghost use Rattle.tclparse.specs.Seen.{name_seen};
ghost use Rattle.tclstate.specs.InTurn.{elements_in};

use acts::{Fault, Raise};
use state::variables::trouble;
use std::alloc::Allocator;
use tclparse::{Name, variable_name};
use tclstate::{ScopeError, Scopes};
use tcltext::Value;

/// The variable or the element that a word names (set(n)).
///
/// # Errors
/// The word is no variable name in this profile of Tcl.
pub fn name_in<A: Allocator>(word: &[u8]) -> Result<Name<'_>, Raise<A>>
    ensures { Answers name_seen (definition.name_in word.now) result }
{
    match variable_name(word) {
        Ok(name) => Ok(name),
        Err(_) => Err(Raise::Fault(Fault::BadVariable)),
    }
}

/// The value of a variable (set(n)).
///
/// # Errors
/// There is no such variable, or it is an array where a text is asked for, or the reverse; or
/// memory is refused for the error.
pub fn value_of<'a, A: Allocator + Copy>(
    alloc: A,
    scopes: &'a Scopes<A>,
    name: &[u8],
    index: Option<&[u8]>,
) -> Result<&'a Value<A>, Raise<A>>
    ensures { Answers (λ value. value.now)
        (definition.value_of name.now (option_copied index.entry) scopes.now) result }
{
    match scopes.get(name, index) {
        Ok(value) => Ok(value),
        Err(error) => Err(troubled(alloc, error, name, index)),
    }
}

/// Writes a variable (set(n)). On `Err` nothing changes.
///
/// # Errors
/// The variable is an array where a text is to be written, or the reverse; or memory is refused.
pub fn put<A: Allocator + Copy>(
    alloc: A,
    scopes: &mut Scopes<A>,
    name: &[u8],
    index: Option<&[u8]>,
    value: Value<A>,
) -> Result<(), Raise<A>>
    ensures { Puts (definition.put name.now (option_copied index.entry) value scopes.old)
        scopes.old result scopes.new }
{
    match scopes.set(alloc, name, index, value) {
        Ok(()) => Ok(()),
        Err(error) => Err(troubled(alloc, error, name, index)),
    }
}

/// Writes elements of an array, which is looked up once, one after the other (set(n), array(n)).
/// Empty texts are left in the place of those that were written.
///
/// # Errors
/// The variable is no array: nothing has changed, and the error is that of the first element. Or
/// memory is refused.
#[tactic(auto, using(crate::proofs::PutAll::all_put))]
pub fn put_all<A: Allocator + Copy>(
    alloc: A,
    scopes: &mut Scopes<A>,
    name: &[u8],
    elements: &mut [(&[u8], Value<A>)],
) -> Result<(), Raise<A>>
    ensures { PutsAll (definition.put_all name.now (elements_in elements.old) scopes.old)
        scopes.old result scopes.new }
{
    let first = first_index(elements);
    match scopes.set_elements(alloc, name, elements) {
        Ok(()) => Ok(()),
        Err(error) => Err(troubled(alloc, error, name, first)),
    }
}

/// The index of the first of some elements.
fn first_index<'a, A: Allocator>(elements: &[(&'a [u8], Value<A>)]) -> Option<&'a [u8]>
    ensures { option_copied result ≡ definition.first_index (elements_in elements.now) }
{
    match elements {
        [(index, _), ..] => Some(index),
        [] => None,
    }
}

/// The script's error where a variable could not be read, written or removed.
pub fn troubled<A: Allocator>(
    alloc: A,
    error: ScopeError,
    name: &[u8],
    index: Option<&[u8]>,
) -> Raise<A>
    ensures { IsTroubled result error name.now (option_copied index.entry) }
{
    match trouble(alloc, error, name, index) {
        Ok(fault) => Raise::Fault(fault),
        Err(refusal) => Raise::NoMemory(refusal),
    }
}

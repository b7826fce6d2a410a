//! The values of variables: reading one that may be missing, and writing one, which gives the
//! value.

ghost use Rattle.std.specs.Prelude.{option_copied};
ghost use Rattle.acts.specs.Raise.{Answers};
ghost use Rattle.kinds.specs.Answers.{Keeps, Stores};
ghost use Rattle.tclstate.specs.Scopes.{Scopes as Variables};
ghost use Rattle.variables.specs.Taken.{Rewrites, Takes};
ghost use Rattle.variables.specs.Values as definition;

use acts::Raise;
use kinds::variables::{self, troubled};
use std::alloc::Allocator;
use tclstate::{ScopeError, Scopes};
use tcltext::Value;

/// The text of a variable or an element, unless it is missing.
///
/// # Errors
/// It can't be read; or memory is refused for the error.
pub fn held<'a, A: Allocator + Copy>(
    alloc: A,
    scopes: &'a Scopes<A>,
    name: &[u8],
    index: Option<&[u8]>,
) -> Result<Option<&'a Value<A>>, Raise<A>>
    ensures { Answers option_copied
        (definition.held name.now (option_copied index.entry) scopes.now) result }
{
    match scopes.get(name, index) {
        Ok(value) => Ok(Some(value)),
        Err(ScopeError::NoVariable) => Ok(None),
        Err(ScopeError::NoElement) => Ok(None),
        Err(error) => Err(troubled(alloc, error, name, index)),
    }
}

/// The text of a variable or an element, taken out of it to be changed and written back: the empty
/// text stands there meanwhile. A missing one counts as empty, and stays missing.
///
/// # Errors
/// It can't be read; or memory is refused for the error.
pub fn taken<A: Allocator + Copy>(
    alloc: A,
    scopes: &mut Scopes<A>,
    name: &[u8],
    index: Option<&[u8]>,
) -> Result<Value<A>, Raise<A>>
    ensures { Takes name.now (option_copied index.entry) scopes.old result scopes.new }
{
    match scopes.take(name, index) {
        Ok(value) => Ok(value),
        Err(ScopeError::NoVariable) => Ok(Value::empty()),
        Err(ScopeError::NoElement) => Ok(Value::empty()),
        Err(error) => Err(troubled(alloc, error, name, index)),
    }
}

/// Lets go of the text of a variable or an element, which is about to be written: the empty text
/// stands there meanwhile. What is missing or can't be read stays as it is. Takes no memory.
pub fn release<A: Allocator + Copy>(scopes: &mut Scopes<A>, name: &[u8], index: Option<&[u8]>)
    ensures { Rewrites name.now (option_copied index.entry) scopes.old scopes.new }
{
    // The text is dropped, or there was none.
    let _ = scopes.take(name, index);
}

/// Writes a variable or an element, and gives its value. On `Err` nothing changes.
///
/// # Errors
/// It can't be written; or memory is refused.
pub fn put<A: Allocator + Copy>(
    alloc: A,
    scopes: &mut Scopes<A>,
    name: &[u8],
    index: Option<&[u8]>,
    value: Value<A>,
) -> Result<Value<A>, Raise<A>>
    ensures { Stores (definition.puts name.now (option_copied index.entry) value scopes.old)
        scopes.old result scopes.new }
{
    let kept = value.share()?;
    variables::put(alloc, scopes, name, index, kept)?;
    Ok(value)
}

/// Writes a variable or an element whose text was taken, and gives its value.
///
/// # Errors
/// It can't be written, and then nothing was taken; or memory is refused.
pub fn put_back<A: Allocator + Copy>(
    alloc: A,
    scopes: &mut Scopes<A>,
    name: &[u8],
    index: Option<&[u8]>,
    value: Value<A>,
) -> Result<Value<A>, Raise<A>>
    ensures { (before : Variables) →
        Rewrites name.now (option_copied index.entry) before scopes.old →
        Keeps (definition.puts name.now (option_copied index.entry) value before)
        before result scopes.new }
{
    put(alloc, scopes, name, index, value)
}

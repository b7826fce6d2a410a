//! `set n ?v?` (set(n)).

ghost use Rattle.acts.specs.Raise.{Answers};
ghost use Rattle.kinds.specs.Answers.{Stores};
ghost use Rattle.variables.specs.Set as definition;

use crate::values;
use acts::Raise;
use acts::raise::wrong_args;
use kinds::variables::{name_in, value_of};
use std::alloc::Allocator;
use tclparse::Name;
use tclstate::Scopes;
use tcltext::Value;

/// Gives the value of a variable; where a value stands after the name, writes the variable first.
///
/// # Errors
/// The wrong number of words; a word that is no variable name; a variable that can't be read or
/// written; or memory is refused. Nothing changes.
pub fn begin<A: Allocator + Copy>(
    alloc: A,
    scopes: &mut Scopes<A>,
    args: &[Value<A>],
) -> Result<Value<A>, Raise<A>>
    ensures { Stores (definition.set args.now scopes.old) scopes.old result scopes.new }
{
    match args {
        [word] => Ok(get(alloc, scopes, word.as_slice())?),
        [word, value] => put(alloc, scopes, word.as_slice(), value),
        _ => Err(wrong_args(alloc, b"set")),
    }
}

/// The value of what a word names.
fn get<A: Allocator + Copy>(alloc: A, scopes: &Scopes<A>, word: &[u8]) -> Result<Value<A>, Raise<A>>
    ensures { Answers (λ value. value) (definition.get word.now scopes.now) result }
{
    let Name { name, index } = name_in(word)?;
    let value = value_of(alloc, scopes, name, index)?;
    Ok(value.share()?)
}

/// Writes what a word names, and gives its value.
fn put<A: Allocator + Copy>(
    alloc: A,
    scopes: &mut Scopes<A>,
    word: &[u8],
    value: &Value<A>,
) -> Result<Value<A>, Raise<A>>
    ensures { Stores (definition.put word.now value.now scopes.old)
        scopes.old result scopes.new }
{
    let Name { name, index } = name_in(word)?;
    let value = value.share()?;
    Ok(values::put(alloc, scopes, name, index, value)?)
}

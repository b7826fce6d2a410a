//! `unset ?-nocomplain? ?--? n ..` (unset(n)).

ghost use Rattle.std.specs.Prelude.{◌≡◌, option_copied};
ghost use Rattle.kinds.specs.Answers.{Puts};
ghost use Rattle.kinds.specs.Readings.{Found, Leaves};
ghost use Rattle.variables.specs.Unset as definition;
ghost use Rattle.variables.specs.Unsets.{is_missing};

use acts::raise::wrong_args;
use acts::{Fault, Raise};
use kinds::usage::after_flag;
use kinds::variables::{name_in, troubled};
use state::variables::all_named;
use std::alloc::Allocator;
use tclparse::Name;
use tclstate::{ScopeError, Scopes};
use tcltext::Value;

/// Removes variables and elements in turn, up to the first error; those before it stay removed.
///
/// # Errors
/// There is no word, or one that is no variable name, and then nothing is removed; a variable that
/// can't be removed; or memory is refused for the error.
pub fn begin<A: Allocator + Copy>(
    alloc: A,
    scopes: &mut Scopes<A>,
    args: &[Value<A>],
) -> Result<Value<A>, Raise<A>>
    ensures { Leaves (Found (definition.unset args.now scopes.old)) result scopes.new }
{
    let (quiet, words) = after_flag(args, b"-nocomplain");
    let (_, words) = after_flag(words, b"--");
    some_words(alloc, scopes, quiet, words)
}

/// Removes what the words name, where there is a word.
fn some_words<A: Allocator + Copy>(
    alloc: A,
    scopes: &mut Scopes<A>,
    quiet: bool,
    words: &[Value<A>],
) -> Result<Value<A>, Raise<A>>
    ensures { Leaves (Found (definition.some_words quiet words.now scopes.old))
        result scopes.new }
{
    if words.is_empty() {
        Err(wrong_args(alloc, b"unset"))
    } else {
        remove_named(alloc, scopes, quiet, words)
    }
}

/// Removes what the words name, where each names a variable.
fn remove_named<A: Allocator + Copy>(
    alloc: A,
    scopes: &mut Scopes<A>,
    quiet: bool,
    words: &[Value<A>],
) -> Result<Value<A>, Raise<A>>
    ensures { Leaves (Found (definition.removes_named quiet words.now scopes.old))
        result scopes.new }
{
    if all_named(words) {
        remove_all(alloc, scopes, quiet, words)
    } else {
        Err(Raise::Fault(Fault::BadVariable))
    }
}

/// Removes what the words name, in turn.
fn remove_all<A: Allocator + Copy>(
    alloc: A,
    scopes: &mut Scopes<A>,
    quiet: bool,
    words: &[Value<A>],
) -> Result<Value<A>, Raise<A>>
    ensures { Leaves (Found (definition.removes quiet words.now scopes.old)) result scopes.new }
{
    for word in words {
        remove_word(alloc, scopes, quiet, word.as_slice())?;
    }
    Ok(Value::empty())
}

/// Removes what a word names. On `Err` nothing changes.
fn remove_word<A: Allocator + Copy>(
    alloc: A,
    scopes: &mut Scopes<A>,
    quiet: bool,
    word: &[u8],
) -> Result<(), Raise<A>>
    ensures { Puts (definition.clears_word quiet word.now scopes.old)
        scopes.old result scopes.new }
{
    let Name { name, index } = name_in(word)?;
    remove(alloc, scopes, quiet, name, index)?;
    Ok(())
}

/// Removes a variable or an element. On `Err` nothing changes.
///
/// What is to be removed can't be, unless it is missing and `quiet` passes that over; or memory is
/// refused for the error.
/// error.
pub(crate) fn remove<A: Allocator + Copy>(
    alloc: A,
    scopes: &mut Scopes<A>,
    quiet: bool,
    name: &[u8],
    index: Option<&[u8]>,
) -> Result<(), Raise<A>>
    ensures { Puts (definition.clears quiet name.now (option_copied index.entry) scopes.old)
        scopes.old result scopes.new }
{
    match scopes.unset(name, index) {
        Ok(()) => Ok(()),
        Err(error) if quiet && is_missing(error) => Ok(()),
        Err(error) => Err(troubled(alloc, error, name, index)),
    }
}

/// Whether a variable or an element is missing.
fn is_missing(error: ScopeError) -> bool
    ensures { result ≡ is_missing error }
{
    matches!(error, ScopeError::NoVariable | ScopeError::NoElement)
}

//! `info exists n` (info(n)).

ghost use Rattle.std.specs.Prelude.{◌≡◌, option_copied};
ghost use Rattle.acts.specs.Raise.{Answers};
ghost use Rattle.tclstate.specs.Scopes.{read};
ghost use Rattle.variables.specs.Info as definition;

use acts::Raise;
use acts::raise::{bad_argument, wrong_args};
use kinds::variables::name_in;
use meanings::truth;
use std::alloc::Allocator;
use tclparse::Name;
use tclstate::{ScopeError, Scopes};
use tcltext::Value;

/// Gives 1 where a word names a variable or an element that is there, else 0.
///
/// # Errors
/// The wrong number of words; another word than `exists`; a word that is no variable name; or
/// memory is refused.
pub fn begin<A: Allocator + Copy>(
    alloc: A,
    scopes: &Scopes<A>,
    args: &[Value<A>],
) -> Result<Value<A>, Raise<A>>
    ensures { Answers (λ value. value) (definition.info args.now scopes.now) result }
{
    let [word, rest @ ..] = args else {
        return Err(wrong_args(alloc, b"info"));
    };
    if word.as_slice() == b"exists".as_slice() {
        exists(alloc, scopes, rest)
    } else {
        Err(bad_argument(alloc, word.as_slice(), b"info"))
    }
}

/// Gives whether what a word names is there.
fn exists<A: Allocator + Copy>(
    alloc: A,
    scopes: &Scopes<A>,
    args: &[Value<A>],
) -> Result<Value<A>, Raise<A>>
    ensures { Answers (λ value. value) (definition.exists args.now scopes.now) result }
{
    let [word] = args else {
        return Err(wrong_args(alloc, b"info"));
    };
    let Name { name, index } = name_in(word.as_slice())?;
    Ok(truth(alloc, is_there(scopes, name, index))?)
}

/// Whether a variable or an element is there.
fn is_there<A: Allocator + Copy>(scopes: &Scopes<A>, name: &[u8], index: Option<&[u8]>) -> bool
    ensures { result ≡ definition.is_there
        (read scopes.now name.now (option_copied index.entry)) }
{
    match scopes.get(name, index) {
        Ok(_) => true,
        Err(error) => error == ScopeError::IsArray,
    }
}

//! `array exists a` (array(n)).

ghost use Rattle.std.specs.Prelude.{◌≡◌, option_copied};
ghost use Rattle.acts.specs.Raise.{Answers};
ghost use Rattle.tclstate.specs.Scopes.{read};
ghost use Rattle.variables.specs.Array.Exists as definition;
ghost use Rattle.variables.specs.Array.Words as words;

use super::one_word;
use acts::Raise;
use kinds::variables::name_in;
use meanings::truth;
use std::alloc::Allocator;
use tclparse::Name;
use tclstate::{ScopeError, Scopes};
use tcltext::Value;

/// Gives 1 where a word names an array, else 0.
///
/// # Errors
/// There is not one word, or it is no variable name; or memory is refused.
pub fn exists<A: Allocator + Copy>(
    alloc: A,
    scopes: &Scopes<A>,
    words: &[Value<A>],
) -> Result<Value<A>, Raise<A>>
    ensures { Answers (λ value. value) (definition.exists words.now scopes.now) result }
{
    let word = one_word(alloc, words)?;
    let Name { name, index } = name_in(word)?;
    Ok(truth(alloc, is_array(scopes, name, index))?)
}

/// Whether a name means an array; that of an element means none.
pub fn is_array<A: Allocator + Copy>(scopes: &Scopes<A>, name: &[u8], index: Option<&[u8]>) -> bool
    ensures { result ≡ words.is_array (read scopes.now name.now (option_copied index.entry)) }
{
    match scopes.get(name, index) {
        Ok(_) => false,
        Err(error) => error == ScopeError::IsArray,
    }
}

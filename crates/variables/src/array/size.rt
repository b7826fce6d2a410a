//! `array size a` (array(n)).

ghost use Rattle.std.specs.Prelude.{◌≡◌, option_copied};
ghost use Rattle.acts.specs.Raise.{Answers};
ghost use Rattle.variables.specs.Array.Size as definition;

use super::one_word;
use acts::Raise;
use kinds::variables::name_in;
use std::alloc::Allocator;
use tclparse::Name;
use tclstate::Scopes;
use tcltext::{Value, print_nat};

/// Gives the number of an array's elements, 0 where a word names no array.
///
/// # Errors
/// There is not one word, or it is no variable name; or memory is refused.
pub fn size<A: Allocator + Copy>(
    alloc: A,
    scopes: &Scopes<A>,
    words: &[Value<A>],
) -> Result<Value<A>, Raise<A>>
    ensures { Answers (λ value. value) (definition.size words.now scopes.now) result }
{
    let word = one_word(alloc, words)?;
    let Name { name, index } = name_in(word)?;
    let count = print_nat(alloc, count_of(scopes, name, index) as u64)?;
    Ok(Value::new(alloc, count)?)
}

/// The number of an array's elements, 0 for a name that means no array, as that of an element does.
fn count_of<A: Allocator + Copy>(scopes: &Scopes<A>, name: &[u8], index: Option<&[u8]>) -> usize
    ensures { result ≡ definition.count_of scopes.now name.now (option_copied index.entry) }
{
    match index {
        None => scopes.size(name),
        Some(_) => 0,
    }
}

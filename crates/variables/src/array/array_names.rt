//! `array names a ?w?` (array(n)).

ghost use Rattle.std.specs.Prelude.{option_copied};
ghost use Rattle.variables.specs.Array.ArrayNames as definition;
ghost use Rattle.kinds.specs.Readings.{Leaves};

use super::indexes::indexes;
use acts::Raise;
use acts::raise::wrong_args;
use kinds::variables::name_in;
use std::alloc::Allocator;
use tclparse::Name;
use tclstate::Scopes;
use tcltext::Value;

/// Gives the list of an array's indexes, or of those that a pattern takes.
///
/// # Errors
/// There are neither one nor two words, the first is no variable name, or the pattern is too long;
/// or memory is refused.
pub fn names<A: Allocator + Copy>(
    alloc: A,
    scopes: &Scopes<A>,
    words: &[Value<A>],
) -> Result<Value<A>, Raise<A>>
    ensures { Leaves (definition.names words.now scopes.now) result scopes.now }
{
    match words {
        [word] => list_named(alloc, scopes, word.as_slice(), None),
        [word, pattern] => list_named(alloc, scopes, word.as_slice(), Some(pattern.as_slice())),
        _ => Err(wrong_args(alloc, b"array")),
    }
}

/// Gives the list of the indexes of the array that a word names.
fn list_named<A: Allocator + Copy>(
    alloc: A,
    scopes: &Scopes<A>,
    word: &[u8],
    pattern: Option<&[u8]>,
) -> Result<Value<A>, Raise<A>>
    ensures { Leaves
        (definition.lists_named word.now (option_copied pattern.entry) scopes.now)
        result scopes.now }
{
    let Name { name, index } = name_in(word)?;
    Ok(list(alloc, scopes, name, index, pattern)?)
}

/// Gives the list of the indexes of an array.
fn list<A: Allocator + Copy>(
    alloc: A,
    scopes: &Scopes<A>,
    name: &[u8],
    index: Option<&[u8]>,
    pattern: Option<&[u8]>,
) -> Result<Value<A>, Raise<A>>
    ensures { Leaves (definition.lists
        name.now (option_copied index.entry) (option_copied pattern.entry) scopes.now)
        result scopes.now }
{
    match indexes(alloc, scopes, name, index, pattern) {
        Ok(indexes) => Ok(Value::list(alloc, &indexes)?),
        Err(why) => Err(why),
    }
}

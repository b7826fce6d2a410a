//! `array get a ?w?` (array(n)).

ghost use Rattle.std.specs.Prelude.{◌≡◌, ◌∷◌, ◌++◌, [], OnOk, option_copied};
ghost use Rattle.acts.specs.Raise.{Answers};
ghost use Rattle.variables.specs.Array.Get as definition;
ghost use Rattle.kinds.specs.Readings.{Leaves};

use super::indexes::indexes;
use acts::raise::wrong_args;
use acts::{NoMemory, Raise};
use kinds::variables::{name_in, value_of};
use std::alloc::Allocator;
use tclparse::Name;
use tclstate::Scopes;
use tcltext::Value;

/// Gives the list of an array's indexes with their values, or of those that a pattern takes.
///
/// # Errors
/// There are neither one nor two words, the first is no variable name, the pattern is too long, or
/// a value can't be read; or memory is refused.
pub fn get<A: Allocator + Copy>(
    alloc: A,
    scopes: &Scopes<A>,
    words: &[Value<A>],
) -> Result<Value<A>, Raise<A>>
    ensures { Leaves (definition.get words.now scopes.now) result scopes.now }
{
    match words {
        [word] => list_named(alloc, scopes, word.as_slice(), None),
        [word, pattern] => list_named(alloc, scopes, word.as_slice(), Some(pattern.as_slice())),
        _ => Err(wrong_args(alloc, b"array")),
    }
}

/// Gives the list of the indexes, with their values, of the array that a word names.
fn list_named<A: Allocator + Copy>(
    alloc: A,
    scopes: &Scopes<A>,
    word: &[u8],
    pattern: Option<&[u8]>,
) -> Result<Value<A>, Raise<A>>
    ensures { Leaves
        (definition.lists_named word.now (option_copied pattern.entry) scopes.now)
        result scopes.now }
{
    let Name { name, index } = name_in(word)?;
    Ok(list(alloc, scopes, name, index, pattern)?)
}

/// Gives the list of the indexes of an array with their values.
fn list<A: Allocator + Copy>(
    alloc: A,
    scopes: &Scopes<A>,
    name: &[u8],
    index: Option<&[u8]>,
    pattern: Option<&[u8]>,
) -> Result<Value<A>, Raise<A>>
    ensures { Leaves (definition.lists
        name.now (option_copied index.entry) (option_copied pattern.entry) scopes.now)
        result scopes.now }
{
    match indexes(alloc, scopes, name, index, pattern) {
        Ok(indexes) => list_values(alloc, scopes, name, &indexes),
        Err(why) => Err(why),
    }
}

/// Gives the list of these indexes with their values.
fn list_values<A: Allocator + Copy>(
    alloc: A,
    scopes: &Scopes<A>,
    name: &[u8],
    indexes: &[Value<A>],
) -> Result<Value<A>, Raise<A>>
    ensures { Answers (λ value. value)
        (definition.list_values name.now indexes.now scopes.now) result }
{
    let elements = values(alloc, scopes, name, indexes)?;
    Ok(Value::list(alloc, &elements)?)
}

/// These indexes, each with the value of its element after it.
fn values<A: Allocator + Copy>(
    alloc: A,
    scopes: &Scopes<A>,
    name: &[u8],
    indexes: &[Value<A>],
) -> Result<Vec<Value<A>, A>, Raise<A>>
    ensures { Answers (λ elements. elements.items)
        (definition.values name.now indexes.now scopes.now) result }
{
    let mut elements = Vec::new(alloc);
    for index in indexes {
        let value = value_of(alloc, scopes, name, Some(index.as_slice()))?;
        push_element(&mut elements, index, value)?;
    }
    Ok(elements)
}

/// Appends an index and its value to others. On `Err` the index may have been appended.
fn push_element<A: Allocator + Copy>(
    elements: &mut Vec<Value<A>, A>,
    index: &Value<A>,
    value: &Value<A>,
) -> Result<(), NoMemory>
    ensures { OnOk result
        (elements.new.items ≡ elements.old.items ++ index.now ∷ value.now ∷ []) }
{
    elements.push(index.share()?)?;
    elements.push(value.share()?)?;
    Ok(())
}

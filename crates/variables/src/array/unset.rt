//! `array unset a ?w?` (array(n)).

ghost use Rattle.std.specs.Prelude.{reverse, option_copied};
ghost use Rattle.variables.specs.Array.Unset as definition;
ghost use Rattle.kinds.specs.Readings.{Found, Leaves};

use super::exists::is_array;
use super::indexes::indexes;
use crate::unset::remove;
use acts::Raise;
use acts::raise::wrong_args;
use kinds::variables::name_in;
use std::alloc::Allocator;
use tclparse::Name;
use tclstate::Scopes;
use tcltext::Value;

/// Removes an array, or those of its elements whose indexes a pattern takes.
///
/// # Errors
/// There are neither one nor two words, the first is no variable name, the pattern is too long, or
/// an element can't be removed; or memory is refused.
pub fn unset<A: Allocator + Copy>(
    alloc: A,
    scopes: &mut Scopes<A>,
    words: &[Value<A>],
) -> Result<Value<A>, Raise<A>>
    ensures { Leaves (definition.unset words.now scopes.old) result scopes.new }
{
    match words {
        [word] => unset_named(alloc, scopes, word.as_slice(), None),
        [word, pattern] => unset_named(alloc, scopes, word.as_slice(), Some(pattern.as_slice())),
        _ => Err(wrong_args(alloc, b"array")),
    }
}

/// Removes what a word names, where it names an array.
fn unset_named<A: Allocator + Copy>(
    alloc: A,
    scopes: &mut Scopes<A>,
    word: &[u8],
    pattern: Option<&[u8]>,
) -> Result<Value<A>, Raise<A>>
    ensures { Leaves
        (definition.unsets_named word.now (option_copied pattern.entry) scopes.old)
        result scopes.new }
{
    let Name { name, index } = name_in(word)?;
    match pattern {
        None => drop_array(alloc, scopes, name, index),
        Some(pattern) => remove_matched(alloc, scopes, name, index, pattern),
    }
}

/// Removes what a name means, where it is an array.
fn drop_array<A: Allocator + Copy>(
    alloc: A,
    scopes: &mut Scopes<A>,
    name: &[u8],
    index: Option<&[u8]>,
) -> Result<Value<A>, Raise<A>>
    ensures { Leaves (Found (definition.drops name.now (option_copied index.entry) scopes.old))
        result scopes.new }
{
    if is_array(scopes, name, index) {
        remove(alloc, scopes, false, name, None)?;
    }
    Ok(Value::empty())
}

/// Removes the elements of an array whose indexes a pattern takes.
fn remove_matched<A: Allocator + Copy>(
    alloc: A,
    scopes: &mut Scopes<A>,
    name: &[u8],
    index: Option<&[u8]>,
    pattern: &[u8],
) -> Result<Value<A>, Raise<A>>
    ensures { Leaves (definition.removes_matched
        name.now (option_copied index.entry) pattern.now scopes.old) result scopes.new }
{
    match indexes(alloc, scopes, name, index, Some(pattern)) {
        Ok(indexes) => remove_all(alloc, scopes, name, indexes),
        Err(why) => Err(why),
    }
}

/// Removes the elements at these indexes, the last one first, so that a removal moves only those
/// that stay.
fn remove_all<A: Allocator + Copy>(
    alloc: A,
    scopes: &mut Scopes<A>,
    name: &[u8],
    mut indexes: Vec<Value<A>, A>,
) -> Result<Value<A>, Raise<A>>
    ensures { Leaves (Found (definition.removes name.now (reverse indexes.items) scopes.old))
        result scopes.new }
{
    while let Some(index) = indexes.pop() {
        remove(alloc, scopes, false, name, Some(index.as_slice()))?;
    }
    Ok(Value::empty())
}

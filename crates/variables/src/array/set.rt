//! `array set a l` (array(n)).

ghost use Rattle.acts.specs.Raise.{Answers};
ghost use Rattle.kinds.specs.Answers.{Puts};
ghost use Rattle.variables.specs.Array.Set as definition;
ghost use Rattle.kinds.specs.Readings.{Found, Leaves};

use acts::raise::{bad_argument, wrong_args};
use acts::{Fault, Raise};
use kinds::variables::{name_in, put, troubled};
use meanings::elements;
use std::alloc::Allocator;
use tclparse::Name;
use tclstate::Scopes;
use tcltext::Value;

/// Sets elements of an array by a list, which pairs each index with its value.
///
/// # Errors
/// There are not two words, the first names no array and can't be made one, the second is no list
/// or leaves an index without a value, or an element can't be written; or memory is refused.
pub fn set<A: Allocator + Copy>(
    alloc: A,
    scopes: &mut Scopes<A>,
    words: &[Value<A>],
) -> Result<Value<A>, Raise<A>>
    ensures { Leaves (definition.set words.now scopes.old) result scopes.new }
{
    match words {
        [word, list] => set_named(alloc, scopes, word.as_slice(), list.as_slice()),
        _ => Err(wrong_args(alloc, b"array")),
    }
}

/// Sets the elements of a list in the array that a word names.
fn set_named<A: Allocator + Copy>(
    alloc: A,
    scopes: &mut Scopes<A>,
    word: &[u8],
    list: &[u8],
) -> Result<Value<A>, Raise<A>>
    ensures { Leaves (definition.sets word.now list.now scopes.old) result scopes.new }
{
    let name = array_in(alloc, word)?;
    Ok(set_list(alloc, scopes, name, list)?)
}

/// The name of the array that a word names.
fn array_in<A: Allocator + Copy>(alloc: A, word: &[u8]) -> Result<&[u8], Raise<A>>
    ensures { Answers (λ name. name.now) (definition.array_in word.now) result }
{
    match name_in(word)? {
        Name { name: [], .. } => Err(Raise::Fault(Fault::BadVariable)),
        Name { index: Some(_), .. } => {
            Err(Raise::Fault(Fault::NotArray(Vec::from_slice(alloc, word)?)))
        }
        Name { name, index: None } => Ok(name),
    }
}

/// Sets the elements of a list in an array, where its text is a list.
fn set_list<A: Allocator + Copy>(
    alloc: A,
    scopes: &mut Scopes<A>,
    name: &[u8],
    list: &[u8],
) -> Result<Value<A>, Raise<A>>
    ensures { Leaves (definition.sets_list name.now list.now scopes.old) result scopes.new }
{
    match elements(alloc, list) {
        Ok(elements) => fill_evenly(alloc, scopes, name, list, &elements),
        Err(why) => Err(why),
    }
}

/// Sets elements in an array, where each index has its value.
fn fill_evenly<A: Allocator + Copy>(
    alloc: A,
    scopes: &mut Scopes<A>,
    name: &[u8],
    list: &[u8],
    elements: &[Value<A>],
) -> Result<Value<A>, Raise<A>>
    ensures { Leaves
        (Found (definition.fills_evenly name.now list.now elements.now scopes.old))
        result scopes.new }
{
    if elements.len() % 2 == 0 {
        fill(alloc, scopes, name, elements)
    } else {
        Err(bad_argument(alloc, list, b"array"))
    }
}

/// Makes a name an array, and sets elements in it.
fn fill<A: Allocator + Copy>(
    alloc: A,
    scopes: &mut Scopes<A>,
    name: &[u8],
    elements: &[Value<A>],
) -> Result<Value<A>, Raise<A>>
    ensures { Leaves (Found (definition.fills name.now elements.now scopes.old))
        result scopes.new }
{
    make(alloc, scopes, name)?;
    Ok(write_all(alloc, scopes, name, elements)?)
}

/// Makes a name an array. On `Err` nothing changes.
fn make<A: Allocator + Copy>(alloc: A, scopes: &mut Scopes<A>, name: &[u8]) -> Result<(), Raise<A>>
    ensures { Puts (definition.made name.now scopes.old) scopes.old result scopes.new }
{
    match scopes.make_array(alloc, name) {
        Ok(()) => Ok(()),
        Err(error) => Err(troubled(alloc, error, name, None)),
    }
}

/// Writes elements in turn, each by its index and its value.
fn write_all<A: Allocator + Copy>(
    alloc: A,
    scopes: &mut Scopes<A>,
    name: &[u8],
    elements: &[Value<A>],
) -> Result<Value<A>, Raise<A>>
    ensures { Leaves (Found (definition.writes_all name.now elements.now scopes.old))
        result scopes.new }
{
    let mut rest = elements;
    'elements: while let [index, value, more @ ..] = rest {
        put(alloc, scopes, name, Some(index.as_slice()), value.share()?)?;
        rest = more;
    }
    Ok(Value::empty())
}

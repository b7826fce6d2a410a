//! The elements of arrays, in the order of insertion.
ghost use Rattle.std.specs.Prelude.{◌≡◌, [], None, Some, IsSome, OnOk, IfOk, OnErr, IfErr};
ghost use Rattle.tclstate.specs.InTurn.{Fills, elements_in};
ghost use Rattle.tclstate.specs.Pairs.{found, keys_of, put, without};
ghost use Rattle.tclstate.specs.Stored.{texts_of};

use crate::error::ScopeError;
use hints::Table;
use memory::NoMemory;
use std::alloc::Allocator;
use std::mem;
use tcltext::Value;

/// The element at an index.
pub fn element<'a, A: Allocator>(
    elements: &'a Table<Value<A>, A>,
    index: &[u8],
) -> Result<&'a Value<A>, ScopeError>
    ensures value { IfOk result (λ value.
        found (texts_of elements.now.entries) index.now ≡ Some value.now) }
    ensures absent { IfErr result (λ e. (e ≡ ScopeError.NoElement)
        × (found (texts_of elements.now.entries) index.now ≡ None)) }
{
    match elements.get(index) {
        Some(value) => Ok(value),
        None => Err(ScopeError::NoElement),
    }
}

/// Takes the element at an index out of there; the empty text stands there then.
pub fn take_element<A: Allocator>(
    elements: &mut Table<Value<A>, A>,
    index: &[u8],
) -> Result<Value<A>, ScopeError>
    ensures value { IfOk result (λ value.
        found (texts_of elements.old.entries) index.now ≡ Some value) }
    ensures emptied { OnOk result
        (texts_of elements.new.entries ≡ put (texts_of elements.old.entries) index.now []) }
    ensures absent { IfErr result (λ e. (e ≡ ScopeError.NoElement)
        × (found (texts_of elements.old.entries) index.now ≡ None)) }
    ensures unchanged { OnErr result (elements.new.entries ≡ elements.old.entries) }
{
    match elements.get_mut(index) {
        Some(value) => Ok(mem::replace(value, Value::empty())),
        None => Err(ScopeError::NoElement),
    }
}

/// Removes the element at an index, and the rest closes up.
pub fn remove_element<A: Allocator>(
    elements: &mut Table<Value<A>, A>,
    index: &[u8],
) -> Result<(), ScopeError>
    ensures ok { OnOk result
        (texts_of elements.new.entries ≡ without (texts_of elements.old.entries) index.now) }
    ensures found { OnOk result (IsSome (found (texts_of elements.old.entries) index.now)) }
    ensures absent { IfErr result (λ e. (e ≡ ScopeError.NoElement)
        × (found (texts_of elements.old.entries) index.now ≡ None)) }
    ensures unchanged { OnErr result (elements.new.entries ≡ elements.old.entries) }
{
    match elements.shift_remove(index) {
        Some(_) => {}
        None => return Err(ScopeError::NoElement),
    }
    Ok(())
}

/// Writes an element. A present one is overwritten in place and takes no memory.
pub fn put_element<A: Allocator + Copy>(
    elements: &mut Table<Value<A>, A>,
    alloc: A,
    index: &[u8],
    value: Value<A>,
) -> Result<(), NoMemory>
    ensures ok { OnOk result
        (texts_of elements.new.entries ≡ put (texts_of elements.old.entries) index.now value) }
    ensures unchanged { OnErr result (elements.new.entries ≡ elements.old.entries) }
{
    match elements.get_mut(index) {
        Some(old) => *old = value,
        None => {
            let key = Vec::from_slice(alloc, index)?;
            elements.insert(key, value)?;
        }
    }
    Ok(())
}

/// Writes elements one after the other, and leaves empty texts in their place.
pub fn put_elements<A: Allocator + Copy>(
    elements: &mut Table<Value<A>, A>,
    alloc: A,
    more: &mut [(&[u8], Value<A>)],
) -> Result<(), NoMemory>
    ensures { Fills (texts_of elements.old.entries) (elements_in more.old) result
        (texts_of elements.new.entries) }
{
    let Some((first, rest)) = more.split_first_mut() else {
        return Ok(());
    };
    let value = mem::replace(&mut first.1, Value::empty());
    match put_element(elements, alloc, first.0, value) {
        Ok(()) => put_elements(elements, alloc, rest),
        Err(refusal) => Err(refusal),
    }
}

/// The indexes of the elements, in order.
pub fn keys<A: Allocator + Copy>(
    elements: &Table<Value<A>, A>,
    alloc: A,
) -> Result<Vec<Value<A>, A>, NoMemory>
    ensures { IfOk result (λ names. names.items ≡ keys_of (texts_of elements.now.entries)) }
{
    let mut names = Vec::new(alloc);
    for index in elements.keys() {
        names.push(Value::from_slice(alloc, index)?)?;
    }
    Ok(names)
}

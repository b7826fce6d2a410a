//! What a variable holds: a text or an array.
ghost use Rattle.std.specs.Prelude.{◌≡◌, [], Some, None, Ok, Err, IfSome, IfNone, IfOk, OnOk, IfErr, OnErr, option_copied, length};
ghost use Rattle.tclstate.specs.InTurn.{Extends, elements_in, extended};
ghost use Rattle.tclstate.specs.Scopes.{value_of, changed, reduced, elements_of};
ghost use Rattle.tclstate.specs.ScopeError.{HasTrouble, HasTroubleOrRefusal};
ghost use Rattle.tclstate.specs.Pairs.{keys_of};
ghost use Rattle.tclstate.specs.Stored.{variable_of};
ghost use Rattle.tclstate.specs.Sum.{HasSum, NoSumInPlace};

use crate::error::ScopeError;
use crate::sum::add_to;
use crate::table::{element, keys, put_element, put_elements, remove_element, take_element};
use hints::{Table, new_table};
use memory::NoMemory;
use std::alloc::Allocator;
use std::mem;
use tcltext::Value;

/// A text or an array.
#[derive(Drop)]
pub enum Content<A: Allocator> {
    Text(Value<A>),
    Array(Table<Value<A>, A>),
}

impl<A: Allocator> Content<A> {
    /// The text, or the element at an index.
    pub fn get(&self, index: Option<&[u8]>) -> Result<&Value<A>, ScopeError>
        ensures value { IfOk result (λ value.
            value_of (Some (variable_of self.now)) (option_copied index.entry) ≡ Ok value.now) }
        ensures trouble { IfErr result (λ e.
            HasTrouble e (value_of (Some (variable_of self.now)) (option_copied index.entry))) }
    {
        match (self, index) {
            (Content::Text(value), None) => Ok(value),
            (Content::Text(_), Some(_)) => Err(ScopeError::NotArray),
            (Content::Array(_), None) => Err(ScopeError::IsArray),
            (Content::Array(elements), Some(index)) => element(elements, index),
        }
    }

    /// Takes the text, or the element at an index, out of there; the empty text stands there then.
    pub fn take(&mut self, index: Option<&[u8]>) -> Result<Value<A>, ScopeError>
        ensures value { IfOk result (λ value.
            value_of (Some (variable_of self.old)) (option_copied index.entry) ≡ Ok value) }
        ensures emptied { OnOk result
            (changed (Some (variable_of self.old)) (option_copied index.entry) []
            ≡ Ok (variable_of self.new)) }
        ensures trouble { IfErr result (λ e.
            HasTrouble e (value_of (Some (variable_of self.old)) (option_copied index.entry))) }
        ensures unchanged { OnErr result (variable_of self.new ≡ variable_of self.old) }
    {
        match (self, index) {
            (Content::Text(text), None) => Ok(mem::replace(text, Value::empty())),
            (Content::Text(_), Some(_)) => Err(ScopeError::NotArray),
            (Content::Array(_), None) => Err(ScopeError::IsArray),
            (Content::Array(elements), Some(index)) => take_element(elements, index),
        }
    }

    /// Adds a number to the one that the text is, and gives the sum. `None` where there is no text
    /// that is a number, where 64 bits do not hold the sum, or where it does not lie in place (it
    /// has more than 14 bytes): nothing has changed then.
    #[inline(always)]
    pub fn add(&mut self, by: i64) -> Option<Value<A>>
        ensures added { IfSome result (λ sum.
            HasSum by sum (value_of (Some (variable_of self.old)) None)) }
        ensures written { IfSome result (λ sum.
            changed (Some (variable_of self.old)) None sum ≡ Ok (variable_of self.new)) }
        ensures unchanged { IfNone result (variable_of self.new ≡ variable_of self.old) }
        ensures missed { IfNone result
            (NoSumInPlace by (value_of (Some (variable_of self.old)) None)) }
    {
        match self {
            Content::Text(text) => add_to(text, by),
            Content::Array(_) => None,
        }
    }

    /// How many elements there are, none in a text.
    pub fn size(&self) -> usize
        ensures { result ≡ length (elements_of (Some (variable_of self.now))) }
    {
        match self {
            Content::Text(_) => 0,
            Content::Array(elements) => elements.len(),
        }
    }

    /// Removes the element at an index.
    pub fn remove_element(&mut self, index: &[u8]) -> Result<(), ScopeError>
        ensures ok { OnOk result
            (reduced (Some (variable_of self.old)) index.now ≡ Ok (variable_of self.new)) }
        ensures trouble { IfErr result
            (λ e. HasTrouble e (reduced (Some (variable_of self.old)) index.now)) }
        ensures unchanged { OnErr result (variable_of self.new ≡ variable_of self.old) }
    {
        match self {
            Content::Text(_) => Err(ScopeError::NotArray),
            Content::Array(elements) => remove_element(elements, index),
        }
    }
}

impl<A: Allocator + Copy> Content<A> {
    /// A new variable: a text, or an array with one element.
    pub fn new(alloc: A, index: Option<&[u8]>, value: Value<A>) -> Result<Content<A>, NoMemory>
        ensures { IfOk result
            (λ made. changed None (option_copied index.entry) value ≡ Ok (variable_of made)) }
    {
        match index {
            None => Ok(Content::Text(value)),
            Some(index) => {
                let mut elements = new_table(alloc);
                put_element(&mut elements, alloc, index, value)?;
                Ok(Content::Array(elements))
            }
        }
    }

    /// The indexes of the elements, in order; none of a text.
    pub fn names(&self, alloc: A) -> Result<Vec<Value<A>, A>, NoMemory>
        ensures { IfOk result
            (λ names. names.items ≡ keys_of (elements_of (Some (variable_of self.now)))) }
    {
        match self {
            Content::Text(_) => Ok(Vec::new(alloc)),
            Content::Array(elements) => keys(elements, alloc),
        }
    }

    /// Overwrites the text, or writes the element at an index.
    #[inline(always)]
    pub fn set(&mut self, alloc: A, index: Option<&[u8]>, value: Value<A>) -> Result<(), ScopeError>
        ensures ok { OnOk result
            (changed (Some (variable_of self.old)) (option_copied index.entry) value
            ≡ Ok (variable_of self.new)) }
        ensures trouble { IfErr result (λ e. HasTroubleOrRefusal e
            (changed (Some (variable_of self.old)) (option_copied index.entry) value)) }
        ensures unchanged { OnErr result (variable_of self.new ≡ variable_of self.old) }
    {
        match (self, index) {
            (Content::Text(text), None) => *text = value,
            (Content::Text(_), Some(_)) => return Err(ScopeError::NotArray),
            (Content::Array(_), None) => return Err(ScopeError::IsArray),
            (Content::Array(elements), Some(index)) => put_element(elements, alloc, index, value)?,
        }
        Ok(())
    }

    /// Writes elements one after the other, where this is an array; tells whether it is.
    #[inline(always)]
    pub fn set_in_array(
        &mut self,
        alloc: A,
        elements: &mut [(&[u8], Value<A>)],
    ) -> Result<bool, NoMemory>
        ensures { Extends (λ es. extended es (Some (variable_of self.old)))
            (elements_in elements.old) (elements_in elements.new) result
            (variable_of self.old) (variable_of self.new) }
    {
        match self {
            Content::Text(_) => return Ok(false),
            Content::Array(present) => put_elements(present, alloc, elements)?,
        }
        Ok(true)
    }
}

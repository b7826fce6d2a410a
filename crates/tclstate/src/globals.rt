//! The global variables.
ghost use Rattle.std.specs.Prelude.{◌≡◌, [], None, Ok, IfSome, IfNone, IfOk, OnOk, IfErr, OnErr, option_copied};
ghost use Rattle.std.specs.Option.{option_map};
ghost use Rattle.tclstate.specs.InTurn.{Extends, elements_in, frame_extended};
ghost use Rattle.tclstate.specs.Pairs.{found, put};
ghost use Rattle.tclstate.specs.Scopes.{frame_written, frame_without, frame_with_array, value_of};
ghost use Rattle.tclstate.specs.ScopeError.{HasTrouble, HasTroubleOrRefusal};
ghost use Rattle.tclstate.specs.Sum.{HasSum, NoSumInPlace};

use crate::content::Content;
use crate::error::ScopeError;
use hints::{Hints, Table, found_near, new_table, place_near};
use memory::NoMemory;
use std::alloc::Allocator;
use std::marker::Model;
use tcltext::Value;

/// The names of the global frame, in the order in which they were first set. None of them is a
/// link.
pub struct Globals<A: Allocator> {
    variables: Table<Content<A>, A>,
    hints: Hints<256>,
}

impl<A: Allocator> Drop for Globals<A> {
    fn drop(self) {
        let Globals {
            variables: _,
            hints: _,
        } = self;
    }
}

impl<A: Allocator> Model for Globals<A> {
    ghost use Rattle.tclstate.specs.Scopes.{Frame};

    ghost Value = { Frame };

    ghost use Rattle.tclstate.specs.Stored.{globals_of};

    ghost view = { λ g. globals_of g.variables.entries };
}

impl<A: Allocator> Globals<A> {
    ghost use Rattle.tclstate.specs.Stored.{variable_of};

    /// What a name stands for.
    #[inline(never)]
    pub fn get(&self, name: &[u8]) -> Option<&Content<A>>
        ensures { option_map variable_of (option_copied result) ≡ found self.now name.now }
    {
        found_near(&self.variables, self.hints.place(name), name)
    }

    /// Takes the text of a name, or of its element at an index, out of there, where the empty text
    /// stands then.
    pub fn take(&mut self, name: &[u8], index: Option<&[u8]>) -> Result<Value<A>, ScopeError>
        ensures value { IfOk result (λ value.
            value_of (found self.old name.now) (option_copied index.entry) ≡ Ok value) }
        ensures emptied { OnOk result
            (frame_written name.now (option_copied index.entry) [] self.old ≡ Ok self.new) }
        ensures trouble { IfErr result (λ e.
            HasTrouble e (value_of (found self.old name.now) (option_copied index.entry))) }
        ensures unchanged { OnErr result (self.new ≡ self.old) }
    {
        let Some(place) = place_near(&self.variables, self.hints.place(name), name) else {
            return Err(ScopeError::NoVariable);
        };
        match self.variables.get_index_mut(place) {
            Some(content) => content.take(index),
            None => unreachable!(),
        }
    }

    /// Adds a number to the one that the text of a name is, and gives the sum. `None` where there
    /// is no text that is a number, where 64 bits do not hold the sum, or where it does not lie in
    /// place (it has more than 14 bytes): nothing has changed then.
    pub fn add(&mut self, name: &[u8], by: i64) -> Option<Value<A>>
        ensures added { IfSome result (λ sum.
            HasSum by sum (value_of (found self.old name.now) None)) }
        ensures written { IfSome result (λ sum.
            frame_written name.now None sum self.old ≡ Ok self.new) }
        ensures unchanged { IfNone result (self.new ≡ self.old) }
        ensures missed { IfNone result
            (NoSumInPlace by (value_of (found self.old name.now) None)) }
    {
        let place = place_near(&self.variables, self.hints.place(name), name)?;
        match self.variables.get_index_mut(place) {
            Some(content) => content.add(by),
            None => unreachable!(),
        }
    }

    /// Removes a name.
    pub fn remove(&mut self, name: &[u8]) -> Result<(), ScopeError>
        ensures ok { OnOk result (frame_without name.now None self.old ≡ Ok self.new) }
        ensures trouble { IfErr result (λ e. HasTrouble e (frame_without name.now None self.old)) }
        ensures unchanged { OnErr result (self.new ≡ self.old) }
    {
        match self.variables.shift_remove(name) {
            Some(_) => {}
            None => return Err(ScopeError::NoVariable),
        }
        Ok(())
    }

    /// Removes the element of a name at an index.
    pub fn remove_element(&mut self, name: &[u8], index: &[u8]) -> Result<(), ScopeError>
        ensures ok { OnOk result (frame_without name.now (Some index.now) self.old ≡ Ok self.new) }
        ensures trouble { IfErr result
            (λ e. HasTrouble e (frame_without name.now (Some index.now) self.old)) }
        ensures unchanged { OnErr result (self.new ≡ self.old) }
    {
        let Some(content) = self.variables.get_mut(name) else {
            return Err(ScopeError::NoVariable);
        };
        content.remove_element(index)
    }
}

impl<A: Allocator + Copy> Globals<A> {
    ghost use Rattle.tclstate.specs.Stored.{variable_of};

    /// Globals without any name. Takes no memory.
    pub fn new(alloc: A) -> Globals<A>
        ensures { result ≡ [] }
    {
        Globals {
            variables: new_table(alloc),
            hints: Hints::new(),
        }
    }

    /// Writes a name, or the element at an index.
    pub fn set(
        &mut self,
        alloc: A,
        name: &[u8],
        index: Option<&[u8]>,
        value: Value<A>,
    ) -> Result<(), ScopeError>
        ensures ok { OnOk result
            (frame_written name.now (option_copied index.entry) value self.old ≡ Ok self.new) }
        ensures trouble { IfErr result (λ e. HasTroubleOrRefusal e
            (frame_written name.now (option_copied index.entry) value self.old)) }
        ensures unchanged { OnErr result (self.new ≡ self.old) }
    {
        match place_near(&self.variables, self.hints.place(name), name) {
            Some(place) => match self.variables.get_index_mut(place) {
                Some(content) => content.set(alloc, index, value),
                None => unreachable!(),
            },
            None => self.set_new(alloc, name, index, value),
        }
    }

    /// Writes elements of an array one after the other, where the name stands for one; tells
    /// whether it does.
    pub fn set_in_array(
        &mut self,
        alloc: A,
        name: &[u8],
        elements: &mut [(&[u8], Value<A>)],
    ) -> Result<bool, NoMemory>
        ensures { Extends (λ es. frame_extended name.now es self.old)
            (elements_in elements.old) (elements_in elements.new) result self.old self.new }
    {
        let Some(place) = place_near(&self.variables, self.hints.place(name), name) else {
            return Ok(false);
        };
        match self.variables.get_index_mut(place) {
            Some(content) => content.set_in_array(alloc, elements),
            None => unreachable!(),
        }
    }

    /// Makes a text, or an array with one element, of a name that stands for nothing yet. This is
    /// rare, so it is apart from writing what is there.
    #[cold]
    #[inline(never)]
    fn set_new(
        &mut self,
        alloc: A,
        name: &[u8],
        index: Option<&[u8]>,
        value: Value<A>,
    ) -> Result<(), ScopeError>
        ensures ok { found self.old name.now ≡ None → OnOk result
            (frame_written name.now (option_copied index.entry) value self.old ≡ Ok self.new) }
        ensures trouble { found self.old name.now ≡ None → IfErr result (λ e.
            HasTroubleOrRefusal e
            (frame_written name.now (option_copied index.entry) value self.old)) }
        ensures unchanged { OnErr result (self.new ≡ self.old) }
    {
        let content = Content::new(alloc, index, value)?;
        self.put(alloc, name, content)?;
        Ok(())
    }

    /// Makes a name an array, unless it is one already.
    pub fn make_array(&mut self, alloc: A, name: &[u8]) -> Result<(), ScopeError>
        ensures ok { OnOk result (frame_with_array name.now self.old ≡ Ok self.new) }
        ensures trouble { IfErr result
            (λ e. HasTroubleOrRefusal e (frame_with_array name.now self.old)) }
        ensures unchanged { OnErr result (self.new ≡ self.old) }
    {
        match self.variables.get(name) {
            Some(Content::Text(_)) => Err(ScopeError::NotArray),
            Some(Content::Array(_)) => Ok(()),
            None => {
                self.put(alloc, name, Content::Array(new_table(alloc)))?;
                Ok(())
            }
        }
    }

    /// Sets what a name stands for; a name that is not there goes last.
    fn put(&mut self, alloc: A, name: &[u8], content: Content<A>) -> Result<(), NoMemory>
        ensures ok { OnOk result (self.new ≡ put self.old name.now (variable_of content)) }
        ensures unchanged { OnErr result (self.new ≡ self.old) }
    {
        let key = Vec::from_slice(alloc, name)?;
        let place = self.variables.len();
        self.variables.insert(key, content)?;
        self.hints.note(name, place);
        Ok(())
    }
}

//! The variables of a procedure that runs.
ghost use Rattle.std.specs.Prelude.{◌≡◌, ◌∷◌, [], List, None, Some, Ok, IfSome, IfNone, IfOk, OnOk, IfErr, OnErr, option_copied};
ghost use Rattle.std.specs.Option.{option_map};
ghost use Rattle.tclstate.specs.InTurn.{Extends, elements_in, scopes_extended};
ghost use Rattle.tclstate.specs.Pairs.{found, put};
ghost use Rattle.tclstate.specs.Scopes as spec;
ghost use Rattle.tclstate.specs.ScopeError.{HasTrouble, HasTroubleOrRefusal};
ghost use Rattle.tclstate.specs.Sum.{HasSum, NoSumInPlace};

use crate::content::Content;
use crate::error::ScopeError;
use crate::globals::Globals;
use crate::local::Local;
use hints::{Hints, Table, found_near, new_table, place_near};
use memory::NoMemory;
use std::alloc::Allocator;
use std::marker::Model;
use tcltext::Value;

/// The variables of one procedure that runs, in the order in which they were first set (proc(n)).
pub struct LocalFrame<A: Allocator> {
    variables: Table<Local<A>, A>,
    hints: Hints<16>,
}

impl<A: Allocator> Drop for LocalFrame<A> {
    fn drop(self) {
        let LocalFrame {
            variables: _,
            hints: _,
        } = self;
    }
}

impl<A: Allocator> Model for LocalFrame<A> {
    ghost use Rattle.tclstate.specs.Scopes.{Frame};

    ghost Value = { Frame };

    ghost use Rattle.tclstate.specs.Stored.{locals_of};

    ghost view = { λ f. locals_of f.variables.entries };
}

impl<A: Allocator> LocalFrame<A> {
    ghost use Rattle.tclstate.specs.Stored.{local_of};

    /// What a name stands for.
    pub(crate) fn get(&self, name: &[u8]) -> Option<&Local<A>>
        ensures { option_map local_of (option_copied result) ≡ found self.now name.now }
    {
        found_near(&self.variables, self.hints.place(name), name)
    }

    /// Takes the text of a name, or of its element at an index, out of there, where the empty text
    /// stands then; for a link, out of the global.
    pub(crate) fn take(
        &mut self,
        globals: &mut Globals<A>,
        name: &[u8],
        index: Option<&[u8]>,
    ) -> Result<Value<A>, ScopeError>
        ensures value { IfOk result (λ value. (outer : List spec.Frame) →
            spec.read (spec.scopes (self.old ∷ outer) globals.old) name.now
            (option_copied index.entry) ≡ Ok value) }
        ensures emptied { OnOk result ((outer : List spec.Frame) →
            spec.written (spec.scopes (self.old ∷ outer) globals.old) name.now
            (option_copied index.entry) []
            ≡ Ok (spec.scopes (self.new ∷ outer) globals.new)) }
        ensures trouble { IfErr result (λ e. (outer : List spec.Frame) → HasTrouble e
            (spec.read (spec.scopes (self.old ∷ outer) globals.old) name.now
            (option_copied index.entry))) }
        ensures unchanged { OnErr result (self.new ≡ self.old) }
        ensures unchanged_globals { OnErr result (globals.new ≡ globals.old) }
    {
        let Some(place) = place_near(&self.variables, self.hints.place(name), name) else {
            return Err(ScopeError::NoVariable);
        };
        match self.variables.get_index_mut(place) {
            Some(local) => local.take(globals, name, index),
            None => unreachable!(),
        }
    }

    /// Adds a number to the one that the text of a name is, for a link to that of the global, and
    /// gives the sum. `None` where there is no text that is a number, where 64 bits do not hold the
    /// sum, or where it does not lie in place (it has more than 14 bytes): nothing has changed
    /// then.
    pub(crate) fn add(&mut self, globals: &mut Globals<A>, name: &[u8], by: i64) -> Option<Value<A>>
        ensures added { IfSome result (λ sum. (outer : List spec.Frame) → HasSum by sum
            (spec.read (spec.scopes (self.old ∷ outer) globals.old) name.now None)) }
        ensures written { IfSome result (λ sum. (outer : List spec.Frame) →
            spec.written (spec.scopes (self.old ∷ outer) globals.old) name.now None sum
            ≡ Ok (spec.scopes (self.new ∷ outer) globals.new)) }
        ensures unchanged { IfNone result (self.new ≡ self.old) }
        ensures unchanged_globals { IfNone result (globals.new ≡ globals.old) }
        ensures missed { IfNone result ((outer : List spec.Frame) → NoSumInPlace by
            (spec.read (spec.scopes (self.old ∷ outer) globals.old) name.now None)) }
    {
        let place = place_near(&self.variables, self.hints.place(name), name)?;
        match self.variables.get_index_mut(place) {
            Some(local) => local.add(globals, name, by),
            None => unreachable!(),
        }
    }

    /// Whether it has room for few names alone.
    pub(crate) fn is_small(&self) -> bool {
        self.variables.capacity() <= 64
    }

    /// Removes all names.
    pub(crate) fn clear(&mut self)
        ensures { self.new ≡ [] }
    {
        self.variables.clear();
    }

    /// Whether a name is linked to the global of that name.
    fn is_link(&self, name: &[u8]) -> bool
        ensures { result ≡ spec.is_link (found self.now name.now) }
    {
        match self.variables.get(name) {
            Some(Local::Link) => true,
            Some(Local::Own(_)) => false,
            None => false,
        }
    }

    /// Removes a name; for a link, removes the global, and the link stays.
    pub(crate) fn remove(&mut self, globals: &mut Globals<A>, name: &[u8]) -> Result<(), ScopeError>
        ensures ok { OnOk result ((outer : List spec.Frame) →
            spec.removed (spec.scopes (self.old ∷ outer) globals.old) name.now None
            ≡ Ok (spec.scopes (self.new ∷ outer) globals.new)) }
        ensures trouble { IfErr result (λ e. (outer : List spec.Frame) → HasTrouble e
            (spec.removed (spec.scopes (self.old ∷ outer) globals.old) name.now None)) }
        ensures unchanged { OnErr result (self.new ≡ self.old) }
        ensures unchanged_globals { OnErr result (globals.new ≡ globals.old) }
    {
        if self.is_link(name) {
            return globals.remove(name);
        }
        match self.variables.shift_remove(name) {
            Some(_) => {}
            None => return Err(ScopeError::NoVariable),
        }
        Ok(())
    }

    /// Removes the element of a name at an index; for a link, the global's element.
    pub(crate) fn remove_element(
        &mut self,
        globals: &mut Globals<A>,
        name: &[u8],
        index: &[u8],
    ) -> Result<(), ScopeError>
        ensures ok { OnOk result ((outer : List spec.Frame) →
            spec.removed (spec.scopes (self.old ∷ outer) globals.old) name.now (Some index.now)
            ≡ Ok (spec.scopes (self.new ∷ outer) globals.new)) }
        ensures trouble { IfErr result (λ e. (outer : List spec.Frame) → HasTrouble e
            (spec.removed (spec.scopes (self.old ∷ outer) globals.old) name.now (Some index.now))) }
        ensures unchanged { OnErr result (self.new ≡ self.old) }
        ensures unchanged_globals { OnErr result (globals.new ≡ globals.old) }
    {
        let Some(local) = self.variables.get_mut(name) else {
            return Err(ScopeError::NoVariable);
        };
        local.remove_element(globals, name, index)
    }
}

impl<A: Allocator + Copy> LocalFrame<A> {
    ghost use Rattle.tclstate.specs.Stored.{local_of};

    /// A frame without names, which takes no memory.
    pub fn new(alloc: A) -> LocalFrame<A>
        ensures { result ≡ [] }
    {
        LocalFrame {
            variables: new_table(alloc),
            hints: Hints::new(),
        }
    }

    /// Gives a name a text, in place of what it stood for; a name that is not there goes last
    /// (proc(n)). Where memory is refused nothing changes.
    pub fn bind(&mut self, alloc: A, name: &[u8], value: Value<A>) -> Result<(), NoMemory>
        ensures ok { OnOk result (self.new ≡ put self.old name.now (spec.Text value)) }
        ensures unchanged { OnErr result (self.new ≡ self.old) }
    {
        self.put(alloc, name, Local::Own(Content::Text(value)))
    }

    /// Writes a name, or its element at an index; for a link, writes the global.
    pub(crate) fn set(
        &mut self,
        globals: &mut Globals<A>,
        alloc: A,
        name: &[u8],
        index: Option<&[u8]>,
        value: Value<A>,
    ) -> Result<(), ScopeError>
        ensures ok { OnOk result ((outer : List spec.Frame) →
            spec.written (spec.scopes (self.old ∷ outer) globals.old) name.now
            (option_copied index.entry) value
            ≡ Ok (spec.scopes (self.new ∷ outer) globals.new)) }
        ensures trouble { IfErr result (λ e. (outer : List spec.Frame) → HasTroubleOrRefusal e
            (spec.written (spec.scopes (self.old ∷ outer) globals.old) name.now
            (option_copied index.entry) value)) }
        ensures unchanged { OnErr result (self.new ≡ self.old) }
        ensures unchanged_globals { OnErr result (globals.new ≡ globals.old) }
    {
        match place_near(&self.variables, self.hints.place(name), name) {
            Some(place) => match self.variables.get_index_mut(place) {
                Some(local) => local.set(globals, alloc, name, index, value),
                None => unreachable!(),
            },
            None => self.set_new(alloc, name, index, value),
        }
    }

    /// Writes elements of an array one after the other, where the name means one; tells whether it
    /// does.
    pub(crate) fn set_in_array(
        &mut self,
        globals: &mut Globals<A>,
        alloc: A,
        name: &[u8],
        elements: &mut [(&[u8], Value<A>)],
    ) -> Result<bool, NoMemory>
        ensures { (outer : List spec.Frame) → Extends
            (λ es. scopes_extended (spec.scopes (self.old ∷ outer) globals.old) name.now es)
            (elements_in elements.old) (elements_in elements.new) result
            (spec.scopes (self.old ∷ outer) globals.old)
            (spec.scopes (self.new ∷ outer) globals.new) }
    {
        let Some(place) = place_near(&self.variables, self.hints.place(name), name) else {
            return Ok(false);
        };
        match self.variables.get_index_mut(place) {
            Some(local) => local.set_in_array(globals, alloc, name, elements),
            None => unreachable!(),
        }
    }

    /// Makes a text, or an array with one element, of a name that stands for nothing yet. This is
    /// rare, so it is apart from writing what is there.
    #[cold]
    #[inline(never)]
    fn set_new(
        &mut self,
        alloc: A,
        name: &[u8],
        index: Option<&[u8]>,
        value: Value<A>,
    ) -> Result<(), ScopeError>
        ensures ok { found self.old name.now ≡ None → OnOk result (
            (outer : List spec.Frame) (globals : spec.Frame) →
            spec.written (spec.scopes (self.old ∷ outer) globals) name.now
            (option_copied index.entry) value
            ≡ Ok (spec.scopes (self.new ∷ outer) globals)) }
        ensures trouble { found self.old name.now ≡ None → IfErr result (λ e.
            (outer : List spec.Frame) (globals : spec.Frame) → HasTroubleOrRefusal e
            (spec.written (spec.scopes (self.old ∷ outer) globals) name.now
            (option_copied index.entry) value)) }
        ensures unchanged { OnErr result (self.new ≡ self.old) }
    {
        let content = Content::new(alloc, index, value)?;
        self.put(alloc, name, Local::Own(content))?;
        Ok(())
    }

    /// Makes a name an array, unless it is one already; for a link, this is done to the global.
    pub(crate) fn make_array(
        &mut self,
        globals: &mut Globals<A>,
        alloc: A,
        name: &[u8],
    ) -> Result<(), ScopeError>
        ensures ok { OnOk result ((outer : List spec.Frame) →
            spec.with_array (spec.scopes (self.old ∷ outer) globals.old) name.now
            ≡ Ok (spec.scopes (self.new ∷ outer) globals.new)) }
        ensures trouble { IfErr result (λ e. (outer : List spec.Frame) → HasTroubleOrRefusal e
            (spec.with_array (spec.scopes (self.old ∷ outer) globals.old) name.now)) }
        ensures unchanged { OnErr result (self.new ≡ self.old) }
        ensures unchanged_globals { OnErr result (globals.new ≡ globals.old) }
    {
        match self.variables.get(name) {
            Some(Local::Own(Content::Text(_))) => Err(ScopeError::NotArray),
            Some(Local::Own(Content::Array(_))) => Ok(()),
            Some(Local::Link) => globals.make_array(alloc, name),
            None => {
                self.put(alloc, name, Local::Own(Content::Array(new_table(alloc))))?;
                Ok(())
            }
        }
    }

    /// Links a name to the global of that name. A local of that name is dropped, and the link goes
    /// last; a link that is there stays.
    pub(crate) fn link(&mut self, alloc: A, name: &[u8]) -> Result<(), NoMemory>
        ensures ok { OnOk result ((outer : List spec.Frame) (globals : spec.Frame) →
            spec.linked (spec.scopes (self.old ∷ outer) globals) name.now
            ≡ spec.scopes (self.new ∷ outer) globals) }
        ensures unchanged { OnErr result (self.new ≡ self.old) }
    {
        if self.is_link(name) {
            return Ok(());
        }
        let key = Vec::from_slice(alloc, name)?;
        self.variables.reserve(1)?;
        self.variables.shift_remove(name);
        let place = self.variables.len();
        self.variables.insert(key, Local::Link)?;
        self.hints.note(name, place);
        Ok(())
    }

    /// Sets what a name stands for; a name that is not there goes last.
    fn put(&mut self, alloc: A, name: &[u8], local: Local<A>) -> Result<(), NoMemory>
        ensures ok { OnOk result (self.new ≡ put self.old name.now (local_of local)) }
        ensures unchanged { OnErr result (self.new ≡ self.old) }
    {
        let key = Vec::from_slice(alloc, name)?;
        let place = self.variables.len();
        self.variables.insert(key, local)?;
        self.hints.note(name, place);
        Ok(())
    }
}

//! What a name stands for in a procedure that runs.
ghost use Rattle.std.specs.Prelude.{◌≡◌, [], Some, None, Ok, IfSome, IfNone, IfOk, OnOk, IfErr, OnErr, option_copied};
ghost use Rattle.tclstate.specs.InTurn.{Extends, elements_in, extended, frame_extended};
ghost use Rattle.tclstate.specs.Scopes.{changed, reduced, frame_written, frame_without};
ghost use Rattle.tclstate.specs.ScopeError.{HasTrouble, HasTroubleOrRefusal};
ghost use Rattle.tclstate.specs.Stored.{local_of, reached, reached_value};
ghost use Rattle.tclstate.specs.Sum.{HasSum, NoSumInPlace};

use crate::content::Content;
use crate::error::ScopeError;
use crate::globals::Globals;
use memory::NoMemory;
use std::alloc::Allocator;
use tcltext::Value;

/// A local variable, or a link to the global of its name.
#[derive(Drop)]
pub enum Local<A: Allocator> {
    Own(Content<A>),
    Link,
}

impl<A: Allocator> Local<A> {
    /// Takes the text, or the element at an index, out of there, where the empty text stands then;
    /// for a link, out of the global.
    pub fn take(
        &mut self,
        globals: &mut Globals<A>,
        name: &[u8],
        index: Option<&[u8]>,
    ) -> Result<Value<A>, ScopeError>
        ensures value { IfOk result (λ value.
            reached_value name.now (option_copied index.entry) (local_of self.old) globals.old
            ≡ Ok value) }
        ensures emptied { OnOk result
            (reached (λ v. changed (Some v) (option_copied index.entry) [])
            (frame_written name.now (option_copied index.entry) [])
            (local_of self.old) globals.old
            ≡ Ok (local_of self.new, globals.new)) }
        ensures trouble { IfErr result (λ e. HasTrouble e
            (reached_value name.now (option_copied index.entry) (local_of self.old) globals.old)) }
        ensures unchanged { OnErr result (local_of self.new ≡ local_of self.old) }
        ensures unchanged_globals { OnErr result (globals.new ≡ globals.old) }
    {
        match self {
            Local::Own(content) => content.take(index),
            Local::Link => globals.take(name, index),
        }
    }

    /// Adds a number to the one that the text is, for a link to that of the global, and gives the
    /// sum. `None` where there is no text that is a number, where 64 bits do not hold the sum, or
    /// where it does not lie in place (it has more than 14 bytes): nothing has changed then.
    pub fn add(&mut self, globals: &mut Globals<A>, name: &[u8], by: i64) -> Option<Value<A>>
        ensures added { IfSome result (λ sum. HasSum by sum
            (reached_value name.now None (local_of self.old) globals.old)) }
        ensures written { IfSome result (λ sum.
            reached (λ v. changed (Some v) None sum) (frame_written name.now None sum)
            (local_of self.old) globals.old
            ≡ Ok (local_of self.new, globals.new)) }
        ensures unchanged { IfNone result (local_of self.new ≡ local_of self.old) }
        ensures unchanged_globals { IfNone result (globals.new ≡ globals.old) }
        ensures missed { IfNone result
            (NoSumInPlace by (reached_value name.now None (local_of self.old) globals.old)) }
    {
        match self {
            Local::Own(content) => content.add(by),
            Local::Link => globals.add(name, by),
        }
    }

    /// Removes the element at an index; for a link, the global's element.
    pub fn remove_element(
        &mut self,
        globals: &mut Globals<A>,
        name: &[u8],
        index: &[u8],
    ) -> Result<(), ScopeError>
        ensures ok { OnOk result
            (reached (λ v. reduced (Some v) index.now) (frame_without name.now (Some index.now))
            (local_of self.old) globals.old
            ≡ Ok (local_of self.new, globals.new)) }
        ensures trouble { IfErr result (λ e. HasTrouble e
            (reached (λ v. reduced (Some v) index.now) (frame_without name.now (Some index.now))
            (local_of self.old) globals.old)) }
        ensures unchanged { OnErr result (local_of self.new ≡ local_of self.old) }
        ensures unchanged_globals { OnErr result (globals.new ≡ globals.old) }
    {
        match self {
            Local::Own(content) => content.remove_element(index),
            Local::Link => globals.remove_element(name, index),
        }
    }
}

impl<A: Allocator + Copy> Local<A> {
    /// Writes the variable, or its element at an index; for a link, writes the global.
    pub fn set(
        &mut self,
        globals: &mut Globals<A>,
        alloc: A,
        name: &[u8],
        index: Option<&[u8]>,
        value: Value<A>,
    ) -> Result<(), ScopeError>
        ensures ok { OnOk result
            (reached (λ v. changed (Some v) (option_copied index.entry) value)
            (frame_written name.now (option_copied index.entry) value)
            (local_of self.old) globals.old
            ≡ Ok (local_of self.new, globals.new)) }
        ensures trouble { IfErr result (λ e. HasTroubleOrRefusal e
            (reached (λ v. changed (Some v) (option_copied index.entry) value)
            (frame_written name.now (option_copied index.entry) value)
            (local_of self.old) globals.old)) }
        ensures unchanged { OnErr result (local_of self.new ≡ local_of self.old) }
        ensures unchanged_globals { OnErr result (globals.new ≡ globals.old) }
    {
        match self {
            Local::Own(content) => content.set(alloc, index, value),
            Local::Link => globals.set(alloc, name, index, value),
        }
    }

    /// Writes elements one after the other, where this is an array or a link to one; tells whether
    /// it is.
    pub fn set_in_array(
        &mut self,
        globals: &mut Globals<A>,
        alloc: A,
        name: &[u8],
        elements: &mut [(&[u8], Value<A>)],
    ) -> Result<bool, NoMemory>
        ensures { Extends (λ es. reached (λ v. extended es (Some v)) (frame_extended name.now es)
            (local_of self.old) globals.old)
            (elements_in elements.old) (elements_in elements.new) result
            (local_of self.old, globals.old) (local_of self.new, globals.new) }
    {
        match self {
            Local::Own(content) => content.set_in_array(alloc, elements),
            Local::Link => globals.set_in_array(alloc, name, elements),
        }
    }
}

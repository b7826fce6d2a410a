//! Scopes: the variables of a script and of the procedures that run.
ghost use Rattle.std.specs.Prelude.{◌≡◌, [], None, Some, Ok, IfSome, IfNone, IfOk, OnOk, IfErr, OnErr, option_copied};
ghost use Rattle.std.specs.Option.{option_map};
ghost use Rattle.tclstate.specs.InTurn.{Extends, Leaves, elements_in, scopes_extended};
ghost use Rattle.tclstate.specs.Scopes as spec;
ghost use Rattle.tclstate.specs.ScopeError.{HasTrouble, HasTroubleOrRefusal};
ghost use Rattle.tclstate.specs.Sum.{HasSum, NoSumInPlace};

use crate::content::Content;
use crate::error::ScopeError;
use crate::frame::LocalFrame;
use crate::globals::Globals;
use crate::local::Local;
use memory::NoMemory;
use std::alloc::Allocator;
use std::marker::Model;
use std::mem;
use tcltext::Value;

/// The variables of a script: those of the global frame, and those of each procedure that runs
/// (Tcl(n), variables; proc(n); global(n)).
///
/// The current frame is that of the innermost procedure, else the global one. A look-up takes at
/// most one hash, in a procedure a second one for a name that is linked to a global, and none where
/// the name stands where it was put last.
pub struct Scopes<A: Allocator> {
    locals: Vec<LocalFrame<A>, A>,
    globals: Globals<A>,
    /// Frames without names, whose room later procedures use again.
    spares: Vec<LocalFrame<A>, A>,
}

impl<A: Allocator> Drop for Scopes<A> {
    fn drop(self) {
        let Scopes {
            locals: _,
            globals: _,
            spares: _,
        } = self;
    }
}

impl<A: Allocator> Model for Scopes<A> {
    ghost use Rattle.tclstate.specs.Scopes as definition;
    ghost use Rattle.std.specs.Prelude.{reverse};

    ghost Value = { definition.Scopes };

    ghost view = { λ s. definition.scopes (reverse s.locals.items) s.globals };

    ghost use Rattle.std.specs.Prelude.{◌≡◌, []};
    ghost use Rattle.std.specs.List.{All};

    ghost invariant = { λ s. All (λ frame. frame ≡ []) s.spares.items };
}

impl<A: Allocator> Scopes<A> {
    ghost use Rattle.tclstate.specs.Stored.{variable_of};

    /// What a name means in the current frame; a link means the global.
    #[inline(always)]
    fn variable(&self, name: &[u8]) -> Option<&Content<A>>
        ensures { option_map variable_of (option_copied result) ≡ spec.variable self.now name.now }
    {
        let Some(frame) = self.locals.last() else {
            return self.globals.get(name);
        };
        match frame.get(name) {
            Some(Local::Own(content)) => Some(content),
            Some(Local::Link) => self.globals.get(name),
            None => None,
        }
    }

    /// The text of a name, or of its element at an index (set(n)).
    ///
    /// # Errors
    /// `NoVariable` where the name means nothing, `IsArray` where it means an array and there is no
    /// index; with an index `NotArray` where it means a text, `NoElement` where the array has no
    /// such element.
    #[inline(always)]
    pub fn get(&self, name: &[u8], index: Option<&[u8]>) -> Result<&Value<A>, ScopeError>
        ensures value { IfOk result
            (λ value. spec.read self.now name.now (option_copied index.entry) ≡ Ok value.now) }
        ensures trouble { IfErr result
            (λ e. HasTrouble e (spec.read self.now name.now (option_copied index.entry))) }
    {
        match self.variable(name) {
            Some(content) => content.get(index),
            None => Err(ScopeError::NoVariable),
        }
    }

    /// The text of a name of the global frame, or of its element at an index.
    ///
    /// # Errors
    /// Those of [`get`](Scopes::get).
    pub fn get_global(&self, name: &[u8], index: Option<&[u8]>) -> Result<&Value<A>, ScopeError>
        ensures value { IfOk result
            (λ value.
            spec.read_global self.now name.now (option_copied index.entry) ≡ Ok value.now) }
        ensures trouble { IfErr result
            (λ e. HasTrouble e (spec.read_global self.now name.now (option_copied index.entry))) }
    {
        match self.globals.get(name) {
            Some(content) => content.get(index),
            None => Err(ScopeError::NoVariable),
        }
    }

    /// Takes the text of a name, or of its element at an index, out of there, to be changed and
    /// written back. The empty text stands there meanwhile, so that no one else shares what was
    /// taken unless a script copied it.
    ///
    /// # Errors
    /// Those of [`get`](Scopes::get); nothing has changed after them.
    pub fn take(&mut self, name: &[u8], index: Option<&[u8]>) -> Result<Value<A>, ScopeError>
        ensures value { IfOk result
            (λ value. spec.read self.old name.now (option_copied index.entry) ≡ Ok value) }
        ensures emptied { OnOk result
            (spec.written self.old name.now (option_copied index.entry) [] ≡ Ok self.new) }
        ensures trouble { IfErr result
            (λ e. HasTrouble e (spec.read self.old name.now (option_copied index.entry))) }
        ensures unchanged { OnErr result (self.new ≡ self.old) }
    {
        match self.locals.last_mut() {
            Some(frame) => frame.take(&mut self.globals, name, index),
            None => self.globals.take(name, index),
        }
    }

    /// Adds a number to the one that the text of a name is, and gives the sum, which stands there
    /// then (incr(n)). `None` where there is no text that is a number, where 64 bits do not hold
    /// the sum, or where it does not lie in place (it has more than 14 bytes): nothing has changed
    /// then. Takes no memory.
    pub fn add(&mut self, name: &[u8], by: i64) -> Option<Value<A>>
        ensures added { IfSome result
            (λ sum. HasSum by sum (spec.read self.old name.now None)) }
        ensures written { IfSome result
            (λ sum. spec.written self.old name.now None sum ≡ Ok self.new) }
        ensures unchanged { IfNone result (self.new ≡ self.old) }
        ensures missed { IfNone result
            (NoSumInPlace by (spec.read self.old name.now None)) }
    {
        match self.locals.last_mut() {
            Some(frame) => frame.add(&mut self.globals, name, by),
            None => self.globals.add(name, by),
        }
    }

    /// Removes a name, or its element at an index; the rest closes up (unset(n)). Through a link
    /// the global is removed, and the link stays.
    ///
    /// # Errors
    /// `NoVariable` where the name means nothing; with an index `NotArray` where it means a text,
    /// `NoElement` where the array has no such element.
    pub fn unset(&mut self, name: &[u8], index: Option<&[u8]>) -> Result<(), ScopeError>
        ensures ok { OnOk result
            (spec.removed self.old name.now (option_copied index.entry) ≡ Ok self.new) }
        ensures trouble { IfErr result
            (λ e. HasTrouble e (spec.removed self.old name.now (option_copied index.entry))) }
        ensures unchanged { OnErr result (self.new ≡ self.old) }
    {
        match index {
            Some(index) => self.remove_element(name, index),
            None => self.remove(name),
        }
    }

    /// Removes a name.
    fn remove(&mut self, name: &[u8]) -> Result<(), ScopeError>
        ensures ok { OnOk result (spec.removed self.old name.now None ≡ Ok self.new) }
        ensures trouble { IfErr result (λ e. HasTrouble e (spec.removed self.old name.now None)) }
        ensures unchanged { OnErr result (self.new ≡ self.old) }
    {
        match self.locals.last_mut() {
            Some(frame) => frame.remove(&mut self.globals, name),
            None => self.globals.remove(name),
        }
    }

    /// Removes the element of a name at an index.
    fn remove_element(&mut self, name: &[u8], index: &[u8]) -> Result<(), ScopeError>
        ensures ok { OnOk result
            (spec.removed self.old name.now (Some index.now) ≡ Ok self.new) }
        ensures trouble { IfErr result
            (λ e. HasTrouble e (spec.removed self.old name.now (Some index.now))) }
        ensures unchanged { OnErr result (self.new ≡ self.old) }
    {
        match self.locals.last_mut() {
            Some(frame) => frame.remove_element(&mut self.globals, name, index),
            None => self.globals.remove_element(name, index),
        }
    }

    /// The number of an array's elements, 0 for a name that means no array (array(n), array size).
    pub fn size(&self, name: &[u8]) -> usize
        ensures { result ≡ spec.size_of self.now name.now }
    {
        match self.variable(name) {
            Some(content) => content.size(),
            None => 0,
        }
    }

    /// Begins a procedure with its frame, which becomes the current one (proc(n)). Where memory is
    /// refused nothing changes.
    pub fn enter(&mut self, frame: LocalFrame<A>) -> Result<(), NoMemory>
        ensures ok { OnOk result (self.new ≡ spec.entered frame self.old) }
        ensures unchanged { OnErr result (self.new ≡ self.old) }
    {
        // There is room for each frame that is in use now, once it has ended.
        self.spares.reserve(self.locals.len().saturating_add(1))?;
        self.locals.push(frame)?;
        Ok(())
    }

    /// Ends the innermost procedure's frame (proc(n)); at the top level, where there is none,
    /// nothing changes.
    pub fn pop_frame(&mut self)
        ensures { self.new ≡ spec.popped self.old }
    {
        if let Some(frame) = self.locals.pop() {
            self.keep(frame);
        }
    }

    /// Keeps a frame, without its names, for a later procedure, where there is room for it. Takes
    /// no memory.
    fn keep(&mut self, mut frame: LocalFrame<A>)
        ensures { self.new ≡ self.old }
    {
        if frame.is_small() && self.spares.len() < self.spares.capacity() {
            frame.clear();
            self.spares.push_reserved(frame);
        }
    }
}

impl<A: Allocator + Copy> Scopes<A> {
    /// Scopes without any name, at the top level. Takes no memory.
    pub fn new(alloc: A) -> Scopes<A>
        ensures { result ≡ spec.empty }
    {
        Scopes {
            locals: Vec::new(alloc),
            globals: Globals::new(alloc),
            spares: Vec::new(alloc),
        }
    }

    /// Writes a name, or its element at an index, and makes what is absent (set(n); array(n)). What
    /// is there is overwritten in place and takes no memory; what is new goes last.
    ///
    /// # Errors
    /// `IsArray` where the name means an array and there is no index, `NotArray` where it means a
    /// text and there is one, and `NoMemory`.
    pub fn set(
        &mut self,
        alloc: A,
        name: &[u8],
        index: Option<&[u8]>,
        value: Value<A>,
    ) -> Result<(), ScopeError>
        ensures ok { OnOk result
            (spec.written self.old name.now (option_copied index.entry) value ≡ Ok self.new) }
        ensures trouble { IfErr result (λ e. HasTroubleOrRefusal e
            (spec.written self.old name.now (option_copied index.entry) value)) }
        ensures unchanged { OnErr result (self.new ≡ self.old) }
    {
        match self.locals.last_mut() {
            Some(frame) => frame.set(&mut self.globals, alloc, name, index, value),
            None => self.globals.set(alloc, name, index, value),
        }
    }

    /// Writes elements of an array one after the other, up to the first that can't be written, as
    /// [`set`](Scopes::set) writes each; an array that is there is looked up once for all of them.
    /// Empty texts are left in the place of those that were written.
    ///
    /// # Errors
    /// `NotArray` where the name means a text: nothing has changed then, and no element could have
    /// been written. `NoMemory`: so many of the first are written.
    #[tactic(auto, using(crate::proofs::InTurn::at_once_ok, crate::proofs::InTurn::at_once_can))]
    pub fn set_elements(
        &mut self,
        alloc: A,
        name: &[u8],
        elements: &mut [(&[u8], Value<A>)],
    ) -> Result<(), ScopeError>
        ensures ok { OnOk result
            (spec.all_written self.old name.now (elements_in elements.old) ≡ Ok self.new) }
        ensures trouble { IfErr result (λ e. HasTroubleOrRefusal e
            (spec.all_written self.old name.now (elements_in elements.old))) }
        ensures left { IfErr result (λ e.
            Leaves e name.now (elements_in elements.old) self.old self.new) }
    {
        match self.set_in_array(alloc, name, elements) {
            Ok(true) => Ok(()),
            Ok(false) => self.set_each(alloc, name, elements),
            Err(refusal) => Err(ScopeError::NoMemory(refusal)),
        }
    }

    /// Writes elements of an array one after the other, where the name means one; tells whether it
    /// does.
    fn set_in_array(
        &mut self,
        alloc: A,
        name: &[u8],
        elements: &mut [(&[u8], Value<A>)],
    ) -> Result<bool, NoMemory>
        ensures { Extends (scopes_extended self.old name.now)
            (elements_in elements.old) (elements_in elements.new) result self.old self.new }
    {
        match self.locals.last_mut() {
            Some(frame) => frame.set_in_array(&mut self.globals, alloc, name, elements),
            None => self.globals.set_in_array(alloc, name, elements),
        }
    }

    /// Writes elements one after the other, each by a look-up of its own. That there is no array
    /// yet is rare, so this is apart from writing into one.
    #[cold]
    #[inline(never)]
    fn set_each(
        &mut self,
        alloc: A,
        name: &[u8],
        elements: &mut [(&[u8], Value<A>)],
    ) -> Result<(), ScopeError>
        ensures ok { OnOk result
            (spec.all_written self.old name.now (elements_in elements.old) ≡ Ok self.new) }
        ensures trouble { IfErr result (λ e. HasTroubleOrRefusal e
            (spec.all_written self.old name.now (elements_in elements.old))) }
        ensures left { IfErr result (λ e.
            Leaves e name.now (elements_in elements.old) self.old self.new) }
    {
        let Some((first, rest)) = elements.split_first_mut() else {
            return Ok(());
        };
        let value = mem::replace(&mut first.1, Value::empty());
        match self.set(alloc, name, Some(first.0), value) {
            Ok(()) => self.set_each(alloc, name, rest),
            Err(error) => Err(error),
        }
    }

    /// Makes a name an array, unless it is one already (array(n), array set).
    ///
    /// # Errors
    /// `NotArray` where the name means a text, and `NoMemory`.
    pub fn make_array(&mut self, alloc: A, name: &[u8]) -> Result<(), ScopeError>
        ensures ok { OnOk result (spec.with_array self.old name.now ≡ Ok self.new) }
        ensures trouble { IfErr result
            (λ e. HasTroubleOrRefusal e (spec.with_array self.old name.now)) }
        ensures unchanged { OnErr result (self.new ≡ self.old) }
    {
        match self.locals.last_mut() {
            Some(frame) => frame.make_array(&mut self.globals, alloc, name),
            None => self.globals.make_array(alloc, name),
        }
    }

    /// Links a name of the innermost procedure to the global of that name (global(n)). A local of
    /// that name is dropped, and the link goes last; a link that is there stays. At the top level,
    /// and where memory is refused, nothing changes.
    pub fn link_global(&mut self, alloc: A, name: &[u8]) -> Result<(), NoMemory>
        ensures ok { OnOk result (self.new ≡ spec.linked self.old name.now) }
        ensures unchanged { OnErr result (self.new ≡ self.old) }
    {
        let Some(frame) = self.locals.last_mut() else {
            return Ok(());
        };
        frame.link(alloc, name)
    }

    /// The indexes of an array, in order; none for a name that means no array
    /// (array(n), array names).
    ///
    /// # Errors
    /// `NoMemory` where memory is refused.
    pub fn names(&self, alloc: A, name: &[u8]) -> Result<Vec<Value<A>, A>, NoMemory>
        ensures { IfOk result (λ names. names.items ≡ spec.names_of self.now name.now) }
    {
        match self.variable(name) {
            Some(content) => content.names(alloc),
            None => Ok(Vec::new(alloc)),
        }
    }

    /// A frame without names, with the room of one that has ended, where there is one. Takes no
    /// memory.
    pub fn fresh_frame(&mut self, alloc: A) -> LocalFrame<A>
        ensures frame { result ≡ [] }
        ensures unchanged { self.new ≡ self.old }
    {
        let Some(frame) = self.spares.pop() else {
            return LocalFrame::new(alloc);
        };
        frame
    }

    /// Begins the frame of a procedure, which has no names yet (proc(n)). Where memory is refused
    /// nothing changes.
    pub fn push_frame(&mut self, alloc: A) -> Result<(), NoMemory>
        ensures ok { OnOk result (self.new ≡ spec.pushed self.old) }
        ensures unchanged { OnErr result (self.new ≡ self.old) }
    {
        self.locals.push(LocalFrame::new(alloc))?;
        Ok(())
    }
}

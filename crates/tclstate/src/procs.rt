//! The procedures of a script, by their names.
ghost use Rattle.std.specs.Prelude.{◌≡◌, [], OnOk, OnErr, option_copied};
ghost use Rattle.tclstate.specs.Pairs.{found, put};

use crate::formals::Formals;
use hints::{Hints, Table, found_near, new_table, slot_of};
use memory::NoMemory;
use std::alloc::Allocator;
use std::marker::Model;
use tcltext::Value;

/// A procedure: its formal arguments and the script that it runs (proc(n)).
pub struct Procedure<A: Allocator> {
    pub formals: Formals<A>,
    pub body: Value<A>,
}

impl<A: Allocator> Drop for Procedure<A> {
    fn drop(self) {
        let Procedure {
            formals: _,
            body: _,
        } = self;
    }
}

impl<A: Allocator> Model for Procedure<A> {
    ghost use Rattle.tclstate.specs.Procs as definition;

    ghost Value = { definition.Procedure };

    ghost view = { λ p. record { formals = p.formals; body = p.body } };
}

/// The procedures that are defined, each name once, with what was last defined for it (proc(n)).
/// A look-up takes at most one hash, and none for most names that are not defined.
pub struct Procs<A: Allocator> {
    procedures: Table<Procedure<A>, A>,
    /// The slots of the names that are defined.
    slots: [bool; 256],
    hints: Hints<256>,
}

impl<A: Allocator> Drop for Procs<A> {
    fn drop(self) {
        let Procs {
            procedures: _,
            slots: _,
            hints: _,
        } = self;
    }
}

impl<A: Allocator> Model for Procs<A> {
    ghost use Rattle.tclstate.specs.Procs as definition;
    ghost use Rattle.tclstate.specs.Stored.{procedures_of};

    ghost Value = { definition.Procs };

    ghost view = { λ p. procedures_of p.procedures.entries };

    ghost use Rattle.tclstate.specs.Marked.{AreMarked};

    ghost invariant = { λ p. AreMarked p.slots (procedures_of p.procedures.entries) };
}

impl<A: Allocator> Procs<A> {
    /// The procedure that was last defined for a name, if there is one.
    #[inline(always)]
    pub fn get(&self, name: &[u8]) -> Option<&Procedure<A>>
        ensures { option_copied result ≡ found self.now name.now }
    {
        if !self.slots[slot_of(name)] {
            return None;
        }
        self.sought(name)
    }

    /// The same, for a name that may be there. Most names are not, and nothing is called for them.
    #[inline(never)]
    fn sought(&self, name: &[u8]) -> Option<&Procedure<A>>
        ensures { option_copied result ≡ found self.now name.now }
    {
        found_near(&self.procedures, self.hints.place(name), name)
    }
}

impl<A: Allocator + Copy> Procs<A> {
    /// A table without procedures. Takes no memory.
    pub fn new(alloc: A) -> Procs<A>
        ensures { result ≡ [] }
    {
        Procs {
            procedures: new_table(alloc),
            slots: [false; 256],
            hints: Hints::new(),
        }
    }

    /// Defines a procedure, in place of what was defined for its name before; all other names keep
    /// their procedures (proc(n)). Where memory is refused nothing changes.
    pub fn define(&mut self, alloc: A, name: &[u8], procedure: Procedure<A>) -> Result<(), NoMemory>
        ensures ok { OnOk result (self.new ≡ put self.old name.now procedure) }
        ensures unchanged { OnErr result (self.new ≡ self.old) }
    {
        let key = Vec::from_slice(alloc, name)?;
        let place = self.procedures.len();
        self.procedures.insert(key, procedure)?;
        self.slots[slot_of(name)] = true;
        self.hints.note(name, place);
        Ok(())
    }
}

//! The spawn ids of a run, and what is set for later ones.

ghost use Rattle.std.specs.Prelude.{◌≡◌, ◌↔◌, ◌++◌, ◌∷◌, [], Err, None, Some, IfOk, OnOk, MatchOption};
ghost use Rattle.state.specs.Ids as definition;
ghost use Rattle.choices.specs.Views.{kind_of};
ghost use Rattle.state.specs.View.{FitsIds, FirstCloses, no_ids, unreaped_by};

use crate::size::Size;
use acts::{Id, NoMemory};
use dialog::{Kind, OpenError, Standing, Table};
use std::alloc::Allocator;

/// An id that may be waited for, and what it was opened for (expect(1), wait).
#[derive(Clone, Copy, Debug, PartialEq, Eq)]
pub struct Unreaped {
    pub id: Id,
    pub kind: Kind,
}

/// The spawn ids of a run, and what is set for later ones.
pub struct Ids<A: Allocator> {
    /// The open ids with their match buffers, and the number of the next id.
    pub table: Table<A>,
    /// The ids, open or closed, that were not waited for yet, in the order of their numbers.
    pub unreaped: Vec<Unreaped, A>,
    /// The standing pairs (expect(1), expect_before and expect_after).
    pub standing: Standing<A>,
    /// The size of later match buffers (expect(1), match_max -d).
    pub size: Size,
    /// Whether nulls are removed from what arrives at later ids (expect(1), remove_nulls -d).
    pub drops_nulls: bool,
}

impl<A: Allocator> Drop for Ids<A> {
    fn drop(self) {
        let Ids {
            table: _,
            unreaped: _,
            standing: _,
            size: _,
            drops_nulls: _,
        } = self;
    }
}

impl<A: Allocator + Copy> Ids<A> {
    /// The ids of a new run: none is open, and the settings for later ids have their first values.
    pub fn new(alloc: A) -> Ids<A>
        ensures { FitsIds result no_ids }
    {
        Ids {
            table: Table::new(alloc),
            unreaped: Vec::new(alloc),
            standing: Standing::new(alloc),
            size: Size::first(),
            drops_nulls: true,
        }
    }

    /// Opens the id of the next number, with an empty buffer that has the settings for later ids.
    ///
    /// # Errors
    /// `TooMany` where no id is left, and then nothing changes; `NoMemory` where memory is refused.
    pub fn open(&mut self, alloc: A, kind: Kind) -> Result<Id, OpenError>
        ensures opens { (ids : definition.Ids) → FitsIds self.old ids → IfOk result (λ id.
            (definition.next_in ids ≡ Some id)
            × FitsIds self.new (definition.with_fresh id (kind_of kind) ids)) }
        ensures too_many { (ids : definition.Ids) → FitsIds self.old ids →
            (result ≡ Err OpenError.TooMany) ↔ (definition.next_in ids ≡ None) }
        ensures unchanged { result ≡ Err OpenError.TooMany → self.new ≡ self.old }
    {
        let id = self
            .table
            .open(alloc, kind, self.size.bytes, self.drops_nulls)?;
        self.note(id, kind)?;
        Ok(id)
    }
}

impl<A: Allocator> Ids<A> {
    /// Notes that an id may be waited for.
    fn note(&mut self, id: Id, kind: Kind) -> Result<(), NoMemory>
        ensures unreaped { OnOk result (self.new.unreaped.items
            ≡ self.old.unreaped.items ++ unreaped_by id kind ∷ []) }
        ensures table { self.new.table ≡ self.old.table }
        ensures standing { self.new.standing ≡ self.old.standing }
        ensures size { self.new.size ≡ self.old.size }
        ensures drops_nulls { self.new.drops_nulls ≡ self.old.drops_nulls }
    {
        self.unreaped.push(Unreaped { id, kind })?;
        Ok(())
    }

    /// The id of the next number, where one is left.
    pub fn next(&self) -> Option<Id>
        ensures { (ids : definition.Ids) → FitsIds self.now ids → result ≡ definition.next_in ids }
    {
        self.table.next_id()
    }

    /// Uses up the next number: no id is opened under it.
    pub fn skip(&mut self)
        ensures { (ids : definition.Ids) → FitsIds self.old ids →
            FitsIds self.new (definition.skipped ids) }
    {
        self.table.skip();
    }

    /// Closes an id, if it is open, and takes its standing pairs away (expect(1), close).
    pub fn close(&mut self, id: Id)
        ensures { (ids : definition.Ids) → FitsIds self.old ids →
            FitsIds self.new (definition.without_id id ids) }
    {
        self.table.close(id);
        self.standing.close(id);
    }

    /// Closes the open id that was opened first, removes its standing pairs, and gives the id;
    /// `None`
    /// where no id is open.
    pub fn close_oldest(&mut self) -> Option<Id>
        ensures { (ids : definition.Ids) → FitsIds self.old ids → MatchOption result
            ((definition.lines_of ids ≡ []) × FitsIds self.new ids)
            (λ id. FirstCloses id self.new ids) }
    {
        let id = self.table.close_oldest()?;
        self.standing.close(id);
        Some(id)
    }
}

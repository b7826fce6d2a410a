//! What a wait reports about the ids that it waits for.
ghost use Rattle.std.specs.Prelude.{◌≡◌, ◌↔◌, ◌+◌, ◌<◌, ◌≤◌, ◌++◌, ◌∷◌, [], List, length, map, IfOk, OnOk, OnErr, IsTrue, vec_capacity};
ghost use Rattle.std.specs.Option.{option_map};
ghost use Rattle.acts.specs.declared.row.Row.{Row};
ghost use Rattle.choices.specs.Lines.{line_of, open_ids, row_of_line, row_anew, rows_of, rows_anew};

use crate::table::Table;
use acts::{Id, NoMemory, Row};
use std::alloc::Allocator;

impl<A: Allocator> Table<A> {
    /// What a wait reports about ids: a row for each one that is open, in the order of `ids`.
    ///
    /// # Errors
    /// `NoMemory`.
    pub fn rows(&self, alloc: A, ids: &[Id]) -> Result<Vec<Row, A>, NoMemory>
        ensures { IfOk result (λ rows. rows.items ≡ rows_of self.now.lines ids.now) }
    {
        let mut rows = Vec::new(alloc);
        self.fill(&mut rows, ids)?;
        Ok(rows)
    }

    /// Replaces what a vector holds by what a wait reports about ids: a row for each one that is
    /// open. The room of the vector is used again.
    ///
    /// # Errors
    /// `NoMemory`, only where the vector had room for fewer rows than there are ids. It then has
    /// the first rows, as far as they were written.
    pub fn fill(&self, rows: &mut Vec<Row, A>, ids: &[Id]) -> Result<(), NoMemory>
        ensures rows { OnOk result (rows.new.items ≡ rows_of self.now.lines ids.now) }
        ensures refused { OnErr result (vec_capacity rows.old < length ids.now) }
        ensures begun { OnErr result ((rest : List Row)
            × (rows.new.items ++ rest ≡ rows_of self.now.lines ids.now)) }
    {
        rows.clear();
        if self.are_all(ids) {
            return self.push_all(rows);
        }
        for id in ids {
            self.push_row(rows, *id)?;
        }
        Ok(())
    }

    /// Writes rows anew, as the buffers are now; the row of an id that is not open stays. No memory
    /// is asked for.
    pub fn refresh(&self, rows: &mut [Row])
        ensures { rows.new ≡ rows_anew self.now.lines rows.old }
    {
        for row in rows.iter_mut() {
            *row = self.row_anew(*row);
        }
    }

    /// Whether these are the ids that are open, all of them and in their order.
    fn are_all(&self, ids: &[Id]) -> bool
        ensures ids { IsTrue result ↔ (ids.now ≡ open_ids self.now.lines) }
        ensures rows { IsTrue result →
            rows_of self.now.lines ids.now ≡ map row_of_line self.now.lines }
    {
        have_ids(&self.rows, ids)
    }

    /// Appends the rows of all open ids, in one piece.
    fn push_all(&self, rows: &mut Vec<Row, A>) -> Result<(), NoMemory>
        ensures rows { OnOk result (rows.new.items
            ≡ rows.old.items ++ map row_of_line self.now.lines) }
        ensures refused { OnErr result (vec_capacity rows.old
            < length rows.old.items + length self.now.lines) }
        ensures unchanged { OnErr result (rows.new.items ≡ rows.old.items) }
    {
        rows.extend_from_slice(&self.rows)?;
        Ok(())
    }

    /// Appends the row of an id, where the id is open.
    fn push_row(&self, rows: &mut Vec<Row, A>, id: Id) -> Result<(), NoMemory>
        ensures rows { OnOk result (rows.new.items
            ≡ rows.old.items ++ rows_of self.now.lines (id ∷ [])) }
        ensures longer { OnOk result (length rows.new.items ≤ length rows.old.items + 1) }
        ensures room { vec_capacity rows.old ≤ vec_capacity rows.new }
        ensures refused { OnErr result (vec_capacity rows.old ≤ length rows.old.items) }
        ensures unchanged { OnErr result (rows.new.items ≡ rows.old.items) }
    {
        let Some(row) = self.row(id) else {
            return Ok(());
        };
        rows.push(row)?;
        Ok(())
    }

    /// What a wait reports about an id, where the id is open.
    fn row(&self, id: Id) -> Option<Row>
        ensures { result ≡ option_map row_of_line (line_of self.now.lines id) }
    {
        match self.place(id) {
            Some(place) => Some(self.rows[place]),
            None => None,
        }
    }

    /// A row written anew as the buffer is now; the same row where its id is not open.
    fn row_anew(&self, row: Row) -> Row
        ensures { result ≡ row_anew (line_of self.now.lines row.id) row }
    {
        match self.row(row.id) {
            Some(anew) => anew,
            None => row,
        }
    }
}

/// Whether rows are those of these ids, one for each and in their order.
fn have_ids(rows: &[Row], ids: &[Id]) -> bool
    ensures { IsTrue result ↔ (ids.now ≡ map (λ r. r.id) rows.now) }
{
    if rows.len() != ids.len() {
        return false;
    }
    for (place, id) in ids.iter().enumerate() {
        if rows[place].id != *id {
            return false;
        }
    }
    true
}

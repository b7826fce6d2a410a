//! The open ids.
ghost use Rattle.std.specs.Prelude.{◌≡◌, ◌==◌, ◌<◌, ◌≤◌, ◌↔◌, ◌++◌, [], ◌∷◌, List, length, position, is_some, Some, None, Err, IfOk, OnOk, OnErr, IfSome, IsTrue, MatchOption, vec_capacity};
ghost use Rattle.std.specs.Option.{option_map};
ghost use Rattle.choices.specs.Lines.{line_of, listing, at_line, without, lesser, least_of, first_id, next_id, number_after, fresh_line, IsFirstOut, reached, resized, dropping, row_of_line, held_by, allowed_to};
ghost use Rattle.choices.specs.Peers.{Peer, FitsPeers, at_peer, fresh, shut, arrived, set_nulls, sized};
ghost use Rattle.choices.specs.Views.{kind_of};
ghost use Rattle.matchbuf.specs.Held.{held};
ghost use Rattle.matchbuf.specs.Size.{IsSize};

use crate::entry::Entry;
use crate::error::OpenError;
use crate::kind::Kind;
use acts::{Id, NoMemory, Row};
use matchbuf::{MatchBuf, MatchBufError};
use patterns::Found;
use std::alloc::Allocator;
use std::marker::Model;

/// How many ids may be open at a time.
pub const MOST_OPEN: usize = 64;

/// The number of the first id: lower ones are left to the program's own files (expect(1), spawn).
const FIRST_NUMBER: u64 = 4;

/// The size of a new match buffer where no other is set as the default, in bytes (expect(1),
/// match_max).
pub const FIRST_SIZE: u32 = 2000;

/// The open ids in the order in which they were opened, each with its match buffer and its row.
pub struct Table<A: Allocator> {
    pub(crate) entries: Vec<Entry<A>, A>,
    /// What a wait reports about each entry, in the order of the entries. A row is written where
    /// something of its id changed, so that a wait copies what stands here.
    pub(crate) rows: Vec<Row, A>,
    next: Option<u64>,
    /// How many choices were looked for, counted round.
    pub(crate) rounds: u64,
    /// The pattern that the last choice found, by the place of its pair, and where it was found.
    pub(crate) found: Option<(usize, Found)>,
}

impl<A: Allocator> Drop for Table<A> {
    fn drop(self) {
        let Table {
            entries: _,
            rows: _,
            next: _,
            rounds: _,
            found: _,
        } = self;
    }
}

impl<A: Allocator> Model for Table<A> {
    ghost use Rattle.std.specs.Prelude.{◌≡◌, ◌≤◌, ◌++◌, length, map};
    ghost use Rattle.choices.specs.Lines.{Listing, Rise, listing, numbers, row_of_line, upcoming};

    ghost Value = { Listing };

    ghost view = { λ t. listing t.entries.items t.next };

    // The ids rise in the order in which they were opened, and the next one is beyond them. Each
    // row is that of its entry as it is now.
    ghost invariant = { λ t. (length t.entries.items ≤ 64)
        × Rise (numbers t.entries.items ++ upcoming t.next)
        × (t.rows.items ≡ map row_of_line t.entries.items) };
}

impl<A: Allocator> Table<A> {
    /// What the last choice found, if it was a pattern: the place of its pair among the pairs that
    /// it was chosen from, and where in the window it was. No contract speaks of it: it is told to
    /// who watches a run.
    pub fn last_found(&self) -> Option<(usize, Found)> {
        self.found
    }

    /// The place of an open id in the table.
    pub(crate) fn place(&self, id: Id) -> Option<usize>
        ensures place { result ≡ position (λ l. l.id.0 == id.0) self.now.lines }
        ensures inside { IfSome result (λ place. place < length self.now.lines) }
    {
        let guess = self.guess(id);
        if self.is_at(guess, id) {
            return Some(guess);
        }
        let guess = self.guess_from_last(id);
        if self.is_at(guess, id) {
            return Some(guess);
        }
        let number = id.0;
        self.entries
            .binary_search_by_key(&number, |entry| entry.id().0)
            .ok()
    }

    /// Whether an id stands at a place.
    fn is_at(&self, place: usize, id: Id) -> bool
        ensures place { IsTrue result →
            Some place ≡ position (λ l. l.id.0 == id.0) self.now.lines }
        ensures inside { IsTrue result → place < length self.now.lines }
    {
        place < self.entries.len() && self.entries[place].id() == id
    }

    /// Where an id stands that is open, if none is closed that was opened between the first open
    /// one and it. Numbers rise by one from one id to the next.
    fn guess(&self, id: Id) -> usize {
        match self.entries.first() {
            Some(first) => id.0.saturating_sub(first.id().0) as usize,
            None => 0,
        }
    }

    /// The same, if none is closed that was opened after it.
    fn guess_from_last(&self, id: Id) -> usize {
        match self.entries.last() {
            Some(last) => {
                let after = last.id().0.saturating_sub(id.0) as usize;
                self.entries.len().saturating_sub(after).saturating_sub(1)
            }
            None => 0,
        }
    }

    /// How many bytes the buffer of an id may hold, where it is open (expect(1), match_max).
    pub fn max(&self, id: Id) -> Option<u32>
        ensures { result ≡ option_map (λ l. l.held.max) (line_of self.now.lines id) }
    {
        match self.place(id) {
            Some(place) => Some(self.entries[place].max()),
            None => None,
        }
    }

    /// Whether nulls are removed from what arrives at an id, where it is open (expect(1),
    /// remove_nulls).
    pub fn drops_nulls(&self, id: Id) -> Option<bool>
        ensures { result ≡ option_map (λ l. l.drops_nulls) (line_of self.now.lines id) }
    {
        match self.place(id) {
            Some(place) => Some(self.entries[place].drops_nulls()),
            None => None,
        }
    }

    /// What an id was opened for, where it is open (expect(1), spawn).
    pub fn kind(&self, id: Id) -> Option<Kind>
        ensures { option_map kind_of result
            ≡ option_map (λ l. l.kind) (line_of self.now.lines id) }
    {
        match self.place(id) {
            Some(place) => Some(self.entries[place].kind()),
            None => None,
        }
    }

    /// Whether an id is open.
    pub fn is_open(&self, id: Id) -> bool
        ensures { result ≡ is_some (line_of self.now.lines id) }
    {
        self.place(id).is_some()
    }

    /// The least open id.
    pub fn first(&self) -> Option<Id>
        ensures { result ≡ first_id self.now.lines }
    {
        match self.entries.split_first() {
            Some((first, rest)) => Some(least(first.id(), rest)),
            None => None,
        }
    }

    /// Closes an id, if it is open.
    pub fn close(&mut self, id: Id)
        ensures lines { self.new.lines ≡ without id self.old.lines }
        ensures next { self.new.next ≡ self.old.next }
        ensures fits { (ps : List Peer) → FitsPeers self.old.lines ps →
            FitsPeers self.new.lines (at_peer shut id ps) }
    {
        if let Some(place) = self.place(id) {
            let _ = self.entries.remove(place);
            let _ = self.rows.remove(place);
        }
    }

    /// Closes the id that was opened first, if one is open, and gives it.
    pub fn close_oldest(&mut self) -> Option<Id>
        ensures closes { MatchOption result ((self.old.lines ≡ []) × (self.new ≡ self.old))
            (λ id. IsFirstOut id self.old.lines self.new.lines) }
        ensures next { self.new.next ≡ self.old.next }
        ensures fits { IfSome result (λ id. (ps : List Peer) → FitsPeers self.old.lines ps →
            FitsPeers self.new.lines (at_peer shut id ps)) }
    {
        if self.entries.is_empty() {
            return None;
        }
        let entry = self.entries.remove(0);
        let _ = self.rows.remove(0);
        Some(entry.id())
    }

    /// Puts bytes that arrived into the buffer of an id, if it is open, without their nulls where
    /// those are removed (expect(1), remove_nulls). No memory is asked for.
    pub fn arrive(&mut self, id: Id, bytes: &[u8])
        ensures lines { self.new.lines ≡ at_line (reached bytes.now) id self.old.lines }
        ensures next { self.new.next ≡ self.old.next }
        ensures fits { (ps : List Peer) → FitsPeers self.old.lines ps →
            FitsPeers self.new.lines (at_peer (arrived bytes.now) id ps) }
    {
        if let Some(place) = self.place(id) {
            let heard = &mut self.entries[place];
            heard.arrive(bytes);
            self.rows[place] = heard.row();
        }
    }

    /// Sets whether nulls are removed from what arrives at an id, if it is open (expect(1),
    /// remove_nulls).
    pub fn set_nulls(&mut self, id: Id, drops: bool)
        ensures lines { self.new.lines ≡ at_line (dropping drops) id self.old.lines }
        ensures next { self.new.next ≡ self.old.next }
        ensures fits { (ps : List Peer) → FitsPeers self.old.lines ps →
            FitsPeers self.new.lines (at_peer (set_nulls drops) id ps) }
    {
        if let Some(place) = self.place(id) {
            self.entries[place].set_nulls(drops);
        }
    }

    /// The number of the next id, where fewer than [`MOST_OPEN`] are open and a number is left.
    pub fn next_id(&self) -> Option<Id>
        ensures { result ≡ next_id self.now }
    {
        if self.entries.len() >= MOST_OPEN {
            return None;
        }
        match self.next {
            Some(number) => Some(Id(number)),
            None => None,
        }
    }

    /// How many bytes all buffers hold together.
    pub fn held(&self) -> u64
        ensures held { result ≡ held_by self.now.lines }
        ensures within { result ≤ allowed_to self.now.lines }
    {
        sum_held(&self.entries)
    }

    /// How many bytes all buffers may hold together (expect(1), match_max).
    pub fn allowed(&self) -> u64
        ensures { result ≡ allowed_to self.now.lines }
    {
        sum_allowed(&self.entries)
    }

    /// Uses up the next number, where one is left.
    pub fn skip(&mut self)
        ensures lines { self.new.lines ≡ self.old.lines }
        ensures next { self.new.next ≡ number_after self.old.next }
    {
        self.next = number_after(self.next);
    }
}

impl<A: Allocator + Copy> Table<A> {
    /// A table without open ids, whose next number is the first one.
    pub fn new(alloc: A) -> Table<A>
        ensures { result ≡ listing [] (Some 4) }
    {
        Table {
            entries: Vec::new(alloc),
            rows: Vec::new(alloc),
            next: Some(FIRST_NUMBER),
            rounds: 0,
            found: None,
        }
    }

    /// Opens the id of the next number for a process or a connection, with an empty buffer of the
    /// default size `max`, and with the default of whether nulls are removed (expect(1), spawn,
    /// match_max -d and remove_nulls -d).
    ///
    /// # Errors
    /// `TooMany` exactly where [`MOST_OPEN`] ids are open or no number is left, and `NoMemory`. The
    /// table is then as it was.
    pub fn open(
        &mut self,
        alloc: A,
        kind: Kind,
        max: u32,
        drops_nulls: bool,
    ) -> Result<Id, OpenError>
        requires { IsSize max }
        ensures opens { IfOk result (λ id. Some id ≡ next_id self.old) }
        ensures listing { IfOk result (λ id. self.new
            ≡ listing (self.old.lines ++ fresh_line id (kind_of kind) max drops_nulls ∷ [])
            (number_after self.old.next)) }
        ensures fits { IfOk result (λ id. (ps : List Peer) → FitsPeers self.old.lines ps →
            FitsPeers self.new.lines (ps ++ fresh id (kind_of kind) max drops_nulls ∷ [])) }
        ensures too_many { (result ≡ Err OpenError.TooMany) ↔ (next_id self.old ≡ None) }
        ensures unchanged { OnErr result (self.new ≡ self.old) }
    {
        let Some(id) = self.next_id() else {
            return Err(OpenError::TooMany);
        };
        let buffer = empty_buffer(alloc, max)?;
        let entry = Entry::new(alloc, id, kind, buffer, drops_nulls)?;
        push_entry(&mut self.entries, &mut self.rows, entry)?;
        self.next = number_after(self.next);
        Ok(id)
    }

    /// Sets the size of the buffer of an open id (expect(1), match_max).
    ///
    /// # Errors
    /// `Size` where `max` is no size of a buffer, and `NoMemory`. The table is then as it was.
    pub fn set_max(&mut self, id: Id, max: u32) -> Result<(), MatchBufError>
        requires { IsTrue (is_some (line_of self.old.lines id)) }
        ensures lines { OnOk result (self.new.lines ≡ at_line (resized max) id self.old.lines) }
        ensures next { self.new.next ≡ self.old.next }
        ensures fits { OnOk result ((ps : List Peer) → FitsPeers self.old.lines ps →
            FitsPeers self.new.lines (at_peer (sized max) id ps)) }
        ensures unchanged { OnErr result (self.new ≡ self.old) }
        ensures size { (result ≡ Err MatchBufError.Size) ↔ ¬ IsSize max }
    {
        let Some(place) = self.place(id) else {
            unreachable!()
        };
        let sized = &mut self.entries[place];
        let outcome = sized.set_max(max);
        self.rows[place] = sized.row();
        outcome
    }
}

/// Appends an entry, and its row to the rows. There is room for both before either is written: on
/// `Err` entries and rows are unchanged.
fn push_entry<A: Allocator>(
    entries: &mut Vec<Entry<A>, A>,
    rows: &mut Vec<Row, A>,
    entry: Entry<A>,
) -> Result<(), NoMemory>
    ensures items { OnOk result (entries.new.items ≡ entries.old.items ++ entry ∷ []) }
    ensures rows { OnOk result (rows.new.items ≡ rows.old.items ++ row_of_line entry ∷ []) }
    ensures unchanged { OnErr result (entries.new.items ≡ entries.old.items) }
    ensures same_rows { OnErr result (rows.new.items ≡ rows.old.items) }
{
    let row = entry.row();
    rows.reserve(1)?;
    entries.push(entry)?;
    put_row(rows, row);
    Ok(())
}

/// Appends a row where there is room for it.
fn put_row<A: Allocator>(rows: &mut Vec<Row, A>, row: Row)
    requires { length rows.old.items < vec_capacity rows.old }
    ensures { rows.new.items ≡ rows.old.items ++ row ∷ [] }
{
    match rows.push(row) {
        Ok(()) => {}
        Err(_) => unreachable!(),
    }
}

/// The number after the next one, where there is one.
fn number_after(next: Option<u64>) -> Option<u64>
    ensures { result ≡ number_after next }
{
    match next {
        Some(number) => number.checked_add(1),
        None => None,
    }
}

/// The least of an id and the ids of entries.
fn least<A: Allocator>(first: Id, entries: &[Entry<A>]) -> Id
    ensures { result ≡ least_of first entries.now }
{
    let mut least = first;
    for entry in entries {
        least = lesser(least, entry.id());
    }
    least
}

/// The lesser of two ids.
fn lesser(id: Id, other: Id) -> Id
    ensures { result ≡ lesser id other }
{
    if other.0 < id.0 { other } else { id }
}

/// How many bytes these buffers hold.
fn sum_held<A: Allocator>(entries: &[Entry<A>]) -> u64
    requires { length entries.now ≤ 64 }
    ensures held { result ≡ held_by entries.now }
    ensures within { result ≤ allowed_to entries.now }
{
    let mut sum = 0;
    for entry in entries {
        sum += entry.len() as u64;
    }
    sum
}

/// How many bytes these buffers may hold.
fn sum_allowed<A: Allocator>(entries: &[Entry<A>]) -> u64
    requires { length entries.now ≤ 64 }
    ensures { result ≡ allowed_to entries.now }
{
    let mut sum = 0;
    for entry in entries {
        sum += u64::from(entry.max());
    }
    sum
}

/// An empty buffer of a size that it may have.
fn empty_buffer<A: Allocator>(alloc: A, max: u32) -> Result<MatchBuf<A>, NoMemory>
    requires { IsSize max }
    ensures { IfOk result (λ buffer. buffer ≡ held [] max) }
{
    match MatchBuf::new(alloc, max) {
        Ok(buffer) => Ok(buffer),
        Err(MatchBufError::NoMemory(refusal)) => Err(refusal),
        Err(MatchBufError::Size) => unreachable!(),
    }
}

//! Records of version 2 that are read entry by entry, as their bytes come.

ghost use Rattle.std.specs.Prelude.{◌≡◌, ◌+◌, ◌^◌, ◌<◌, ℕ, List, [], MatchOption, IfOk, IfErr, IfNone, IfSome, OnOk, length, true, false};
ghost use Rattle.records.specs.Entry.{AreLinesOf, Note, lines_of, note_of, second_header};
ghost use Rattle.records.specs.Fault.{IsNoteFault};
ghost use Rattle.records.specs.declared.reader.ReadFault.TheVariants as fault;
ghost use Rattle.records.specs.declared.record.RecordFault.TheVariants as unfit;

use crate::ahead::Ahead;
use crate::entries::{SECOND_HEADER, read_entry};
use crate::entry::Entry;
use crate::passing::pass_entry;
use crate::record::RecordFault;
use crate::source::Source;
use acts::NoMemory;
use lines::cut_at;
use std::alloc::Allocator;
use thiserror::Error;

/// Why an entry was not read.
#[derive(Clone, Copy, Debug, PartialEq, Eq, Error)]
pub enum ReadFault {
    /// What was read is no record, or memory was refused.
    #[error("no record")]
    Unfit(RecordFault),
    /// Reading was given up.
    #[error("not to be read")]
    GivenUp,
}

impl From<RecordFault> for ReadFault {
    ghost from_gives = { λ found result. result ≡ fault.Unfit found };

    fn from(found: RecordFault) -> ReadFault {
        ReadFault::Unfit(found)
    }
}

impl From<NoMemory> for ReadFault {
    ghost from_gives = { λ refusal result. result ≡ fault.Unfit (unfit.NoMemory refusal) };

    fn from(refusal: NoMemory) -> ReadFault {
        ReadFault::Unfit(RecordFault::NoMemory(refusal))
    }
}

/// A record that is read as its bytes come. Nothing is kept of what was read but what begins the
/// next entry.
pub struct EntryReader<A: Allocator, S> {
    alloc: A,
    source: S,
    ahead: Ahead<A>,
    ended: bool,
}

impl<A: Allocator, S: Drop> Drop for EntryReader<A, S> {
    fn drop(self) {
        let EntryReader {
            alloc: _,
            source: _,
            ahead: _,
            ended: _,
        } = self;
    }
}

impl<A: Allocator + Copy, S: Source + Drop> EntryReader<A, S> {
    ghost use Rattle.records.specs.Reading.{AreAll, GivesFault, GivesRecord, HasFault, IsAtEnd, IsBroken, IsFresh, IsStopped, KnowsEnd, ReadsOn, place_of, unused};

    /// A record of which nothing was read yet.
    pub fn new(alloc: A, source: S) -> Result<EntryReader<A, S>, NoMemory>
        ensures place { IfOk result (λ reader. place_of reader ≡ (source, [])) }
        ensures fresh { IfOk result (λ reader. IsFresh reader) }
    {
        let ahead = Ahead::new(alloc)?;
        Ok(EntryReader {
            alloc,
            source,
            ahead,
            ended: false,
        })
    }

    /// Its source, of which more may have been read than was used.
    pub fn source(&self) -> &S
        ensures { result.now ≡ self.now.source }
    {
        &self.source
    }

    /// Counts the entries of the record that its source gives, which is read to its end; `None`
    /// where it does not begin with the header of version 2.
    pub fn count(&mut self) -> Result<Option<u64>, ReadFault>
        requires fresh { IsFresh self.old }
        requires few { S.most self.old.source < 2 ^ 64 }
        ensures gives { IfOk result (λ found. IfSome found (λ count.
            GivesRecord S.gives count self.old.source self.new.source)) }
        ensures fault { IfErr result
            (GivesFault S.gives S.gives_up self.old.source self.new.source) }
    {
        if !self.begin()? {
            return Ok(None);
        }
        Ok(Some(self.count_entries()?))
    }

    /// Reads the header of version 2; `false` where it does not stand at the front.
    pub fn begin(&mut self) -> Result<bool, ReadFault>
        ensures header { IfOk result (λ second. second ≡ true
            → ReadsOn S.gives S.most (place_of self.old) second_header (place_of self.new)) }
        ensures known { OnOk result (KnowsEnd S.gives self.old → KnowsEnd S.gives self.new) }
        ensures broken { IfErr result
            (IsBroken S.gives S.gives_up self.old.source self.new.source) }
    {
        self.read_ahead()?;
        let Some(_lines) = self.ahead.text().strip_prefix(SECOND_HEADER) else {
            return Ok(false);
        };
        self.ahead.use_up(SECOND_HEADER.len());
        Ok(true)
    }

    /// Counts the entries after the header, all of which are read up to the end.
    fn count_entries(&mut self) -> Result<u64, ReadFault>
        requires few { length (unused self.old.ahead) + S.most self.old.source + 4 < 2 ^ 64 }
        requires known { KnowsEnd S.gives self.old }
        ensures all { IfOk result (λ count.
            AreAll S.gives S.most count (place_of self.old) (place_of self.new)) }
        ensures fault { IfErr result
            (HasFault S.gives S.gives_up S.most (place_of self.old) (place_of self.new)) }
    {
        let mut line = 2;
        let mut count = 0;
        while let Some(lines) = self.pass(line)? {
            line += lines;
            count += 1;
        }
        Ok(count)
    }

    /// Reads the next entry; `None` at the end. `line` is the number of its first line, for faults.
    pub fn next(&mut self, line: u64) -> Result<Option<Entry<A>>, ReadFault>
        requires line { line + 1 < 2 ^ 64 }
        ensures next { IfOk result (λ found. MatchOption found
            (ReadsOn S.gives S.most (place_of self.old) [] (place_of self.new)
            × (unused self.new.ahead ≡ []))
            (λ entry. (front : List ℕ)
            × AreLinesOf (note_of entry).rows (note_of entry).reply front
            × ReadsOn S.gives S.most (place_of self.old) front (place_of self.new))) }
        ensures known { OnOk result (KnowsEnd S.gives self.old → KnowsEnd S.gives self.new) }
        ensures ended { IfOk result (λ found. IfNone found (self.new.ended ≡ true)) }
        ensures stopped { IfErr result
            (IsStopped S.gives S.gives_up S.most line (place_of self.old) (place_of self.new)) }
    {
        match self.take_at_hand(line)? {
            Some(entry) => Ok(Some(entry)),
            None => self.read_next(line),
        }
    }

    /// Takes the next entry where its lines are at hand, as those of most are: then their ends are
    /// not looked for first. `None` says nothing of what is at hand.
    fn take_at_hand(&mut self, line: u64) -> Result<Option<Entry<A>>, NoMemory>
        requires line { line + 1 < 2 ^ 64 }
        ensures next { IfOk result (λ found. MatchOption found (self.new ≡ self.old)
            (λ entry. (front : List ℕ)
            × AreLinesOf (note_of entry).rows (note_of entry).reply front
            × ReadsOn S.gives S.most (place_of self.old) front (place_of self.new))) }
        ensures source { self.new.source ≡ self.old.source }
        ensures ended { self.new.ended ≡ self.old.ended }
    {
        if self.ahead.text().is_empty() {
            return Ok(None);
        }
        match self.take_entry(line) {
            Ok(entry) => Ok(Some(entry)),
            Err(RecordFault::NoMemory(refusal)) => Err(refusal),
            Err(_) => Ok(None),
        }
    }

    /// Reads the next entry, as `next`, where its lines are not at hand.
    fn read_next(&mut self, line: u64) -> Result<Option<Entry<A>>, ReadFault>
        requires line { line + 1 < 2 ^ 64 }
        ensures next { IfOk result (λ found. MatchOption found
            (ReadsOn S.gives S.most (place_of self.old) [] (place_of self.new)
            × (unused self.new.ahead ≡ []))
            (λ entry. (front : List ℕ)
            × AreLinesOf (note_of entry).rows (note_of entry).reply front
            × ReadsOn S.gives S.most (place_of self.old) front (place_of self.new))) }
        ensures known { OnOk result (KnowsEnd S.gives self.old → KnowsEnd S.gives self.new) }
        ensures ended { IfOk result (λ found. IfNone found (self.new.ended ≡ true)) }
        ensures stopped { IfErr result
            (IsStopped S.gives S.gives_up S.most line (place_of self.old) (place_of self.new)) }
    {
        self.read_ahead()?;
        if self.ahead.text().is_empty() {
            return Ok(None);
        }
        Ok(Some(self.take_entry(line)?))
    }

    /// Takes the entry that begins what is at hand.
    fn take_entry(&mut self, line: u64) -> Result<Entry<A>, RecordFault>
        requires some { 0 < length (unused self.old.ahead) }
        requires line { line + 1 < 2 ^ 64 }
        ensures next { IfOk result (λ entry. (front : List ℕ)
            × AreLinesOf (note_of entry).rows (note_of entry).reply front
            × ReadsOn S.gives S.most (place_of self.old) front (place_of self.new)) }
        ensures fault { IfErr result (λ fault. (self.new ≡ self.old)
            × IsNoteFault line (unused self.old.ahead) fault) }
        ensures source { self.new.source ≡ self.old.source }
        ensures ended { self.new.ended ≡ self.old.ended }
    {
        let text = self.ahead.text();
        let (entry, rest) = read_entry(self.alloc, text, line)?;
        let used = text.len() - rest.len();
        self.ahead.use_up(used);
        Ok(entry)
    }

    /// Passes the next entry, and says how many lines it has; `None` at the end. `line` is the
    /// number of its first line, for faults.
    fn pass(&mut self, line: u64) -> Result<Option<u64>, ReadFault>
        requires line { line + 1 < 2 ^ 64 }
        ensures next { IfOk result (λ found. MatchOption found
            (ReadsOn S.gives S.most (place_of self.old) [] (place_of self.new)
            × (unused self.new.ahead ≡ []))
            (λ lines. (note : Note) × (front : List ℕ) × AreLinesOf note.rows note.reply front
            × (lines ≡ lines_of note.rows)
            × ReadsOn S.gives S.most (place_of self.old) front (place_of self.new))) }
        ensures known { OnOk result (KnowsEnd S.gives self.old → KnowsEnd S.gives self.new) }
        ensures ended { IfOk result (λ found. IfNone found (self.new.ended ≡ true)) }
        ensures stopped { IfErr result
            (IsStopped S.gives S.gives_up S.most line (place_of self.old) (place_of self.new)) }
    {
        match self.pass_at_hand(line) {
            Some(lines) => Ok(Some(lines)),
            None => self.pass_read(line),
        }
    }

    /// Passes the next entry where its lines are at hand. `None` says nothing of what is at hand.
    fn pass_at_hand(&mut self, line: u64) -> Option<u64>
        requires line { line + 1 < 2 ^ 64 }
        ensures next { MatchOption result (self.new ≡ self.old)
            (λ lines. (note : Note) × (front : List ℕ) × AreLinesOf note.rows note.reply front
            × (lines ≡ lines_of note.rows)
            × ReadsOn S.gives S.most (place_of self.old) front (place_of self.new)) }
        ensures source { self.new.source ≡ self.old.source }
        ensures ended { self.new.ended ≡ self.old.ended }
    {
        if self.ahead.text().is_empty() {
            return None;
        }
        match self.pass_entry(line) {
            Ok(lines) => Some(lines),
            Err(_) => None,
        }
    }

    /// Passes the next entry, as `pass`, where its lines are not at hand.
    fn pass_read(&mut self, line: u64) -> Result<Option<u64>, ReadFault>
        requires line { line + 1 < 2 ^ 64 }
        ensures next { IfOk result (λ found. MatchOption found
            (ReadsOn S.gives S.most (place_of self.old) [] (place_of self.new)
            × (unused self.new.ahead ≡ []))
            (λ lines. (note : Note) × (front : List ℕ) × AreLinesOf note.rows note.reply front
            × (lines ≡ lines_of note.rows)
            × ReadsOn S.gives S.most (place_of self.old) front (place_of self.new))) }
        ensures known { OnOk result (KnowsEnd S.gives self.old → KnowsEnd S.gives self.new) }
        ensures ended { IfOk result (λ found. IfNone found (self.new.ended ≡ true)) }
        ensures stopped { IfErr result
            (IsStopped S.gives S.gives_up S.most line (place_of self.old) (place_of self.new)) }
    {
        self.read_ahead()?;
        if self.ahead.text().is_empty() {
            return Ok(None);
        }
        Ok(Some(self.pass_entry(line)?))
    }

    /// Passes the entry that begins what is at hand, and says how many lines it has.
    fn pass_entry(&mut self, line: u64) -> Result<u64, RecordFault>
        requires some { 0 < length (unused self.old.ahead) }
        requires line { line + 1 < 2 ^ 64 }
        ensures next { IfOk result (λ lines. (note : Note) × (front : List ℕ)
            × AreLinesOf note.rows note.reply front × (lines ≡ lines_of note.rows)
            × ReadsOn S.gives S.most (place_of self.old) front (place_of self.new)) }
        ensures fault { IfErr result (λ fault. (self.new ≡ self.old)
            × IsNoteFault line (unused self.old.ahead) fault) }
        ensures source { self.new.source ≡ self.old.source }
        ensures ended { self.new.ended ≡ self.old.ended }
    {
        let text = self.ahead.text();
        let (lines, rest) = pass_entry(text, line)?;
        let used = text.len() - rest.len();
        self.ahead.use_up(used);
        Ok(lines)
    }

    /// Reads on until the lines of an entry are there, or up to the end.
    fn read_ahead(&mut self) -> Result<(), ReadFault>
        ensures reads { OnOk result
            (ReadsOn S.gives S.most (place_of self.old) [] (place_of self.new)) }
        ensures known { OnOk result (KnowsEnd S.gives self.old → KnowsEnd S.gives self.new) }
        ensures ended { OnOk result (unused self.new.ahead ≡ [] → self.new.ended ≡ true) }
        ensures broken { IfErr result
            (IsBroken S.gives S.gives_up self.old.source self.new.source) }
    {
        while !self.ended && !is_whole(self.ahead.text()) {
            self.read_piece()?;
        }
        Ok(())
    }

    /// Reads a piece more.
    fn read_piece(&mut self) -> Result<(), ReadFault>
        ensures reads { OnOk result
            (ReadsOn S.gives S.most (place_of self.old) [] (place_of self.new)) }
        ensures less { OnOk result (self.new.ended ≡ false
            → S.most self.new.source < S.most self.old.source) }
        ensures known { OnOk result (KnowsEnd S.gives self.new) }
        ensures broken { IfErr result
            (IsBroken S.gives S.gives_up self.old.source self.new.source) }
    {
        self.ahead.make_room()?;
        let Some(taken) = self.ahead.read_from(&mut self.source) else {
            return Err(ReadFault::GivenUp);
        };
        self.ended = taken == 0;
        Ok(())
    }
}

/// Whether the lines of an entry are whole: there is a line, and another one behind that of a wait.
fn is_whole(text: &[u8]) -> bool
    ensures { text.now ≡ [] → result ≡ false }
{
    match cut_at(text, b'\n') {
        Some((line, rest)) => !line.starts_with(b"wait") || cut_at(rest, b'\n').is_some(),
        None => false,
    }
}

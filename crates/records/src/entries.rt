//! Records of both versions, as entries.

ghost use Rattle.std.specs.Prelude.{◌≡◌, ◌+◌, ◌^◌, ◌<◌, ◌⊎◌, ℕ, List, length, map, ◌++◌, IfOk, IfErr, MatchResult};
ghost use Rattle.std.specs.List.{AllByRecursion};
ghost use Rattle.acts.specs.Deed.{Reply, reply_of};
ghost use Rattle.records.specs.Entry.{AreEntries, AreLinesOf, AreNotes, HasLines, HasSecondHeader, IsBadLine, IsNote, IsSecondRecord, Note, lines_of, note_of, plain_note};
ghost use Rattle.records.specs.Fault.{IsEntriesFault, IsFault, IsNoteFault, IsNotesFault, IsRefused};
ghost use Rattle.records.specs.Record.{HasHeader, IsRecord};

use crate::entry::Entry;
use crate::record::{RecordFault, read_first, read_record};
use acts::{Answer, NoMemory, Row};
use lines::read_wait;
use std::alloc::Allocator;

/// The first line of a record of version 2, with its newline.
pub(crate) const SECOND_HEADER: &[u8; 12] = b"rx-record 2\n";

/// Reads the record that a text is, of either version, as entries, in time linear in its length.
/// The entries of a record of version 1 have no rows.
pub fn read_entries<A: Allocator + Copy>(
    alloc: A,
    text: &[u8],
) -> Result<Vec<Entry<A>, A>, RecordFault>
    ensures read { IfOk result (λ entries. AreEntries (map note_of entries.items) text.now) }
    // So these entries may be written again.
    ensures told { IfOk result (λ entries. AllByRecursion IsNote (map note_of entries.items)) }
    ensures fault { IfErr result (λ fault. IsEntriesFault text.now fault) }
    // Conversely, the entries of a record are read unless memory is refused.
    ensures record { (notes : List Note) → AreEntries notes text.now
        → MatchResult result (λ entries. map note_of entries.items ≡ notes) IsRefused }
    ensures no_header { ¬ HasHeader text.now → ¬ HasSecondHeader text.now
        → result ≡ Err RecordFault.Header }
    ensures bad_line { (n : ℕ) → IsBadLine text.now n
        → MatchResult result (λ _. ⊥) (λ fault. (fault ≡ RecordFault.Line n) ⊎ IsRefused fault) }
{
    read_either(alloc, text)
}

/// Reads a record of the version that its header names.
fn read_either<A: Allocator + Copy>(alloc: A, text: &[u8]) -> Result<Vec<Entry<A>, A>, RecordFault>
    ensures read { IfOk result (λ entries. AreEntries (map note_of entries.items) text.now) }
    ensures fault { IfErr result (λ fault. IsEntriesFault text.now fault) }
    ensures no_header { ¬ HasHeader text.now → ¬ HasSecondHeader text.now
        → result ≡ Err RecordFault.Header }
{
    match text.strip_prefix(SECOND_HEADER) {
        Some(lines) => read_notes(alloc, lines),
        None => read_plain(alloc, text),
    }
}

/// The entries of a record of version 1.
fn read_plain<A: Allocator + Copy>(alloc: A, text: &[u8]) -> Result<Vec<Entry<A>, A>, RecordFault>
    ensures read { IfOk result (λ entries. (replies : List Reply) × IsRecord replies text.now
        × (map note_of entries.items ≡ map plain_note replies)) }
    ensures fault { IfErr result (λ fault. IsFault text.now fault) }
    ensures no_header { ¬ HasHeader text.now → result ≡ Err RecordFault.Header }
{
    match read_record(alloc, text) {
        Ok(answers) => Ok(without_rows(alloc, answers)?),
        Err(fault) => Err(fault),
    }
}

/// Answers as entries without rows.
fn without_rows<A: Allocator>(
    alloc: A,
    answers: Vec<Answer<A>, A>,
) -> Result<Vec<Entry<A>, A>, NoMemory>
    ensures { IfOk result (λ entries.
        map note_of entries.items ≡ map plain_note (map reply_of answers.items)) }
{
    let mut entries = Vec::new(alloc);
    for answer in answers {
        entries.push(Entry { rows: None, answer })?;
    }
    Ok(entries)
}

/// The entries whose lines a text has; `lines` is what follows the header of version 2.
fn read_notes<A: Allocator + Copy>(alloc: A, lines: &[u8]) -> Result<Vec<Entry<A>, A>, RecordFault>
    requires { length lines.now + 12 < 2 ^ 64 }
    ensures read { IfOk result (λ entries. AreNotes (map note_of entries.items) lines.now) }
    ensures fault { IfErr result (λ fault. IsNotesFault lines.now fault) }
{
    let mut entries = Vec::new(alloc);
    let mut line = 2u64;
    let mut rest = lines;
    while !rest.is_empty() {
        let (entry, after) = read_entry(alloc, rest, line)?;
        line += count_lines(&entry);
        entries.push(entry)?;
        rest = after;
    }
    Ok(entries)
}

/// The entry that a text begins with, which is not empty, and the text after it. `line` is the
/// number of the first line, for faults.
pub(crate) fn read_entry<A: Allocator + Copy>(
    alloc: A,
    text: &[u8],
    line: u64,
) -> Result<(Entry<A>, &[u8]), RecordFault>
    requires some { 0 < length text.now }
    requires line { line + 1 < 2 ^ 64 }
    ensures { MatchResult result
        (λ first. (front : List ℕ)
        × AreLinesOf (note_of first.0).rows (note_of first.0).reply front
        × (text.now ≡ front ++ first.1.now))
        (λ fault. IsNoteFault line text.now fault) }
{
    let Some((rows, behind)) = read_wait(alloc, text)? else {
        let Some((answer, rest)) = read_first(alloc, text, 0)? else {
            return Err(RecordFault::Line(line));
        };
        return Ok((Entry { rows: None, answer }, rest));
    };
    let Some((answer, rest)) = read_first(alloc, behind, likely_len(&rows))? else {
        return Err(RecordFault::Line(line + 1));
    };
    let rows = Some(rows);
    Ok((Entry { rows, answer }, rest))
}

/// How many bytes an arrival most likely has that answers a wait for these rows: as many as are
/// wanted for the first of them.
fn likely_len(rows: &[Row]) -> usize {
    match rows.first() {
        Some(row) => row.want as usize,
        None => 0,
    }
}

/// How many lines an entry has.
pub(crate) fn count_lines<A: Allocator>(entry: &Entry<A>) -> u64
    ensures { result ≡ lines_of (note_of entry.now).rows }
{
    match &entry.rows {
        Some(_) => 2,
        None => 1,
    }
}

/// A list of entries that have lines has one text of version 2, no two lists have the same text of
/// either version, and a text that has a bad line is the text of no list and has one first bad
/// line.
pub fn one_list_of_entries()
    ensures some_text { (notes : List Note)
        → AllByRecursion HasLines notes → (text : List ℕ) × IsSecondRecord notes text }
    ensures one_text { (notes : List Note) (a b : List ℕ)
        → IsSecondRecord notes a → IsSecondRecord notes b → a ≡ b }
    ensures one_list { (a b : List Note) (text : List ℕ)
        → AreEntries a text → AreEntries b text → a ≡ b }
    ensures no_bad_line { (notes : List Note) (text : List ℕ) (n : ℕ)
        → AreEntries notes text → ¬ IsBadLine text n }
    ensures one_bad_line { (text : List ℕ) (m n : ℕ)
        → IsBadLine text m → IsBadLine text n → m ≡ n }
{}

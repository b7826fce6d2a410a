//! Records that are written, line by line as their answers come.

ghost use Rattle.std.specs.Prelude.{◌≡◌, ◌<◌, ◌≤◌, ◌↔◌, ◌∷◌, ◌++◌, [], ℕ, List, Some, IsErr, length, codes, map, true};
ghost use Rattle.std.specs.List.{AllByRecursion};
ghost use Rattle.acts.specs.Deed.{reply_of};
ghost use Rattle.acts.specs.Deed as said;
ghost use Rattle.hex.specs.Hex.{encode_lower};
ghost use Rattle.lines.specs.Line.{IsWholeLine, newline};
ghost use Rattle.lines.specs.Rows.{IsRow, row_text, rows_text};
ghost use Rattle.records.specs.Entry.{AreLinesOf, AreNotes, IsNote, IsSecondRecord, note_of, second_header};
ghost use Rattle.records.specs.Record.{AreLines, IsRecord, IsTold};
ghost use Rattle.records.specs.Sink.{Takes};
ghost use Rattle.records.specs.declared.written.TheConstants.{PIECE};

use crate::entries::SECOND_HEADER;
use crate::entry::Entry;
use crate::record::HEADER;
use crate::sink::{Sink, put_all, put_number};
use acts::{Answer, Id, Row};
use lines::write_digits;
use std::alloc::Allocator;
use thiserror::Error;

/// How many bytes at most are spelled into one buffer.
const PIECE: usize = 512;

/// A sink failed before it had taken the whole text.
#[derive(Clone, Copy, Debug, PartialEq, Eq, Error)]
#[error("the record could not be written")]
pub struct SinkFailed;

/// Writes the record of some answers, of version 1. None of the answers is `Answer::NoMore`, which
/// has no line. After an error the sink has got a beginning of the record.
pub fn write_record<A: Allocator, S: Sink>(
    answers: &[Answer<A>],
    sink: &mut S,
) -> Result<(), SinkFailed>
    requires { AllByRecursion IsTold (map reply_of answers.now) }
    ensures text { (text : List ℕ) × IsRecord (map reply_of answers.now) text
        × Takes S.adds S.has_failed sink.old text sink.new }
    ensures fault { IsErr result ↔ (S.has_failed sink.new ≡ true) }
{
    put_all(sink, HEADER);
    write_answers(sink, answers);
    ended(sink)
}

/// Writes the record of some entries, of version 2. None of their answers is `Answer::NoMore`, and
/// their rows are in range. After an error the sink has got a beginning of the record.
pub fn write_entries<A: Allocator, S: Sink>(
    entries: &[Entry<A>],
    sink: &mut S,
) -> Result<(), SinkFailed>
    requires { AllByRecursion IsNote (map note_of entries.now) }
    ensures text { (text : List ℕ) × IsSecondRecord (map note_of entries.now) text
        × Takes S.adds S.has_failed sink.old text sink.new }
    ensures fault { IsErr result ↔ (S.has_failed sink.new ≡ true) }
{
    put_all(sink, SECOND_HEADER);
    write_notes(sink, entries);
    ended(sink)
}

/// Writes the first line of a record of version 2, as a run begins.
pub fn write_header<S: Sink>(sink: &mut S)
    ensures { Takes S.adds S.has_failed sink.old second_header sink.new }
{
    put_all(sink, SECOND_HEADER);
}

/// An error where a sink has failed, and so has not taken the whole text.
fn ended<S: Sink>(sink: &S) -> Result<(), SinkFailed>
    ensures { IsErr result ↔ (S.has_failed sink.now ≡ true) }
{
    if sink.failed() {
        Err(SinkFailed)
    } else {
        Ok(())
    }
}

/// Writes the lines of some answers.
fn write_answers<A: Allocator, S: Sink>(sink: &mut S, answers: &[Answer<A>])
    requires { AllByRecursion IsTold (map reply_of answers.now) }
    ensures { (text : List ℕ) × AreLines (map reply_of answers.now) text
        × Takes S.adds S.has_failed sink.old text sink.new }
{
    for answer in answers {
        write_line(sink, answer);
    }
}

/// Writes the lines of some entries.
fn write_notes<A: Allocator, S: Sink>(sink: &mut S, entries: &[Entry<A>])
    requires { AllByRecursion IsNote (map note_of entries.now) }
    ensures { (text : List ℕ) × AreNotes (map note_of entries.now) text
        × Takes S.adds S.has_failed sink.old text sink.new }
{
    for entry in entries {
        write_entry(sink, entry);
    }
}

/// Writes the lines of an entry.
pub fn write_entry<A: Allocator, S: Sink>(sink: &mut S, entry: &Entry<A>)
    requires { IsNote (note_of entry.now) }
    ensures { (text : List ℕ) × AreLinesOf (note_of entry.now).rows (note_of entry.now).reply text
        × Takes S.adds S.has_failed sink.old text sink.new }
{
    match &entry.rows {
        Some(rows) => write_waited(sink, rows, &entry.answer),
        None => write_line(sink, &entry.answer),
    }
}

/// Writes the line of a wait for these rows, which are in range, and the line of its answer.
pub fn write_waited<A: Allocator, S: Sink>(sink: &mut S, rows: &[Row], answer: &Answer<A>)
    requires rows { AllByRecursion IsRow rows.now }
    requires answer { IsTold (reply_of answer.now) }
    ensures { (text : List ℕ) × AreLinesOf (Some rows.now) (reply_of answer.now) text
        × Takes S.adds S.has_failed sink.old text sink.new }
{
    put_all(sink, b"wait");
    put_rows(sink, rows);
    put_all(sink, b"\n");
    write_line(sink, answer);
}

/// Writes the line of an answer that is not `Answer::NoMore`, which has none.
pub fn write_line<A: Allocator, S: Sink>(sink: &mut S, answer: &Answer<A>)
    requires { IsTold (reply_of answer.now) }
    ensures { (text : List ℕ) × IsWholeLine (reply_of answer.now) text
        × Takes S.adds S.has_failed sink.old text sink.new }
{
    match answer {
        Answer::Done => put_all(sink, b"done\n"),
        Answer::Failed(sent) => put_failed(sink, *sent),
        Answer::Started(pid) => put_started(sink, *pid),
        Answer::Refused => put_all(sink, b"refused\n"),
        Answer::Exited(status) => put_exited(sink, *status),
        Answer::Arrive(id, bytes) => put_arrival(sink, *id, bytes),
        Answer::Ended(id) => put_ended(sink, *id),
        Answer::TimedOut => put_all(sink, b"timeout\n"),
        Answer::NoMore => {}
    }
}

/// Puts the line of a failure after `sent` bytes.
fn put_failed<S: Sink>(sink: &mut S, sent: u64)
    ensures { (text : List ℕ) × IsWholeLine (said.Failed sent) text
        × Takes S.adds S.has_failed sink.old text sink.new }
{
    put_number(sink, b"failed ", sent, b"\n");
}

/// Puts the line of a program that was started as the process of this number.
fn put_started<S: Sink>(sink: &mut S, pid: u64)
    ensures { (text : List ℕ) × IsWholeLine (said.Started pid) text
        × Takes S.adds S.has_failed sink.old text sink.new }
{
    put_number(sink, b"started ", pid, b"\n");
}

/// Puts the line of a process that ended with a status, or without one.
fn put_exited<S: Sink>(sink: &mut S, status: Option<u8>)
    ensures { (text : List ℕ) × IsWholeLine (said.Exited status) text
        × Takes S.adds S.has_failed sink.old text sink.new }
{
    match status {
        Some(status) => put_number(sink, b"exited ", status as u64, b"\n"),
        None => put_all(sink, b"exited -\n"),
    }
}

/// Puts the line of the end of an id.
fn put_ended<S: Sink>(sink: &mut S, id: Id)
    ensures { (text : List ℕ) × IsWholeLine (said.Ended id) text
        × Takes S.adds S.has_failed sink.old text sink.new }
{
    put_number(sink, b"ended exp", id.0, b"\n");
}

/// Puts the line of bytes that came.
fn put_arrival<S: Sink>(sink: &mut S, id: Id, bytes: &[u8])
    ensures { (text : List ℕ) × IsWholeLine (said.Arrive id bytes.now) text
        × Takes S.adds S.has_failed sink.old text sink.new }
{
    put_number(sink, b"arrive exp", id.0, b" ");
    put_hex(sink, bytes);
    put_all(sink, b"\n");
}

/// Puts rows, each after a blank.
fn put_rows<S: Sink>(sink: &mut S, rows: &[Row])
    ensures { Takes S.adds S.has_failed sink.old (rows_text rows.now) sink.new }
{
    for row in rows {
        put_row(sink, row);
    }
}

/// Puts a row after a blank.
fn put_row<S: Sink>(sink: &mut S, row: &Row)
    ensures { Takes S.adds S.has_failed sink.old (32 ∷ row_text row.now) sink.new }
{
    put_number(sink, b" exp", row.id.0, b":");
    put_number(sink, b"", row.held as u64, b":");
    put_number(sink, b"", row.max as u64, b"");
}

/// Puts bytes as lower case digits, two a byte.
fn put_hex<S: Sink>(sink: &mut S, bytes: &[u8])
    ensures { Takes S.adds S.has_failed sink.old (encode_lower bytes.now) sink.new }
{
    let mut rest = bytes;
    while !rest.is_empty() {
        let (piece, after) = split_piece(rest);
        put_piece(sink, piece);
        rest = after;
    }
}

/// At most `PIECE` bytes from the front of a text, and what follows them.
fn split_piece(bytes: &[u8]) -> (&[u8], &[u8])
    ensures whole { bytes.now ≡ result.0.now ++ result.1.now }
    ensures piece { length result.0.now ≤ PIECE }
    ensures less { 0 < length bytes.now → length result.1.now < length bytes.now }
{
    bytes.split_at(bytes.len().min(PIECE))
}

/// Puts at most `PIECE` bytes as lower case digits.
fn put_piece<S: Sink>(sink: &mut S, piece: &[u8])
    requires { length piece.now ≤ PIECE }
    ensures { Takes S.adds S.has_failed sink.old (encode_lower piece.now) sink.new }
{
    let mut digits = [0u8; 2 * PIECE];
    let room = &mut digits[..2 * piece.len()];
    write_digits(piece, room);
    put_all(sink, room);
}

//! Records that are cut.

use crate::report::Report;
use records::{RecordFault, read_record};
use rowfiles::Row;
use rowfiles::record::{HEADER, record_of};
use std::alloc::{AllocError, Global};

/// The longest record that is cut after each byte.
const LONGEST: usize = 1000;

/// Reads the record of a row cut after each of its bytes: cut at the end of a line, it has the
/// answers so far; cut within the header, it is no record; and cut anywhere else, its last line is
/// bad.
pub fn run_cuts(alloc: Global, report: &mut Report, row: &Row) -> Result<(), AllocError> {
    let record = record_of(alloc, row)?;
    if LONGEST < record.len() {
        return Ok(());
    }
    let mut wanted = String::new(alloc);
    let mut came = String::new(alloc);
    push_cuts(&mut wanted, &mut came, record.as_bytes())?;
    let by = "its record cut after each byte";
    report.compare(row.title.as_str(), by, wanted.as_str(), came.as_str())
}

/// Writes the expected and the actual results of reading a record cut after each byte.
fn push_cuts(wanted: &mut String, came: &mut String, record: &[u8]) -> Result<(), AllocError> {
    for end in 0..=record.len() {
        let front = record.get(..end).unwrap_or(b"");
        push_wanted(wanted, front)?;
        push_read(came, front)?;
    }
    Ok(())
}

/// Writes the expected result of reading a cut record.
fn push_wanted(text: &mut String, front: &[u8]) -> Result<(), AllocError> {
    let end = front.len();
    let lines = count_lines(front);
    if end < HEADER.len() {
        writeln!(text, "{end}: no header")
    } else if front.ends_with(b"\n") {
        let answers = lines.saturating_sub(1);
        writeln!(text, "{end}: {answers} answers")
    } else {
        let line = lines.saturating_add(1);
        writeln!(text, "{end}: line {line}")
    }
}

/// How many lines end in a text.
fn count_lines(text: &[u8]) -> usize {
    let mut lines = 0usize;
    for byte in text {
        if *byte == b'\n' {
            lines = lines.saturating_add(1);
        }
    }
    lines
}

/// Writes the actual result of reading a cut record.
fn push_read(text: &mut String, front: &[u8]) -> Result<(), AllocError> {
    let end = front.len();
    match read_record(*text.allocator(), front) {
        Ok(answers) => {
            let answers = answers.len();
            writeln!(text, "{end}: {answers} answers")
        }
        Err(RecordFault::Header) => writeln!(text, "{end}: no header"),
        Err(RecordFault::Line(line)) => writeln!(text, "{end}: line {line}"),
        Err(_) => writeln!(text, "{end}: no memory"),
    }
}

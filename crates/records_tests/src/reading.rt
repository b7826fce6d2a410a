//! Records that are read.

use acts::{Answer, Row};
use memory::NoMemory;
use records::{Entry, RecordFault, read_entries, read_record};
use rowfiles::spelling::push_answer;
use std::alloc::{Allocator, Global};
use tables::{Answers, name, push_shown};

/// The table of records.
#[derive(Drop)]
pub struct Reading {
    pub alloc: Global,
}

impl Answers for Reading {
    fn answer<A: Allocator + Copy>(
        &self,
        row: &[Vec<u8>],
        answer: &mut Vec<u8, A>,
    ) -> Result<(), NoMemory> {
        let [kind, text] = row else {
            return Ok(());
        };
        match name(kind) {
            "answers" => self.tell_answers(answer, text),
            _ => self.tell_entries(answer, text),
        }
    }
}

impl Reading {
    /// Writes the answers of a record, or what is wrong with it.
    fn tell_answers<A: Allocator + Copy>(
        &self,
        out: &mut Vec<u8, A>,
        text: &[u8],
    ) -> Result<(), NoMemory> {
        match read_record(*out.allocator(), text) {
            Ok(answers) => push_answers(self.alloc, out, &answers),
            Err(fault) => tell_fault(out, fault),
        }
    }

    /// Writes the entries of a record, or what is wrong with it.
    fn tell_entries<A: Allocator + Copy>(
        &self,
        out: &mut Vec<u8, A>,
        text: &[u8],
    ) -> Result<(), NoMemory> {
        match read_entries(*out.allocator(), text) {
            Ok(entries) => push_entries(self.alloc, out, &entries),
            Err(fault) => tell_fault(out, fault),
        }
    }
}

fn push_answers<A: Allocator + Copy>(
    alloc: Global,
    out: &mut Vec<u8, A>,
    answers: &[Answer<A>],
) -> Result<(), NoMemory> {
    for answer in answers {
        push_spelled(alloc, out, answer)?;
    }
    Ok(())
}

fn push_entries<A: Allocator + Copy>(
    alloc: Global,
    out: &mut Vec<u8, A>,
    entries: &[Entry<A>],
) -> Result<(), NoMemory> {
    for entry in entries {
        if let Some(rows) = &entry.rows {
            out.extend_from_slice(b"wait ")?;
            push_rows(out, rows)?;
        }
        push_spelled(alloc, out, &entry.answer)?;
    }
    Ok(())
}

fn push_rows<A: Allocator + Copy>(out: &mut Vec<u8, A>, rows: &[Row]) -> Result<(), NoMemory> {
    for row in rows {
        let (id, held, max, want) = (row.id.0, row.held, row.max, row.want);
        push_shown(out, format_args!("{id} {held} {max} {want}, "))?;
    }
    Ok(())
}

/// Writes an answer as rows spell it, by a line in memory of its own.
fn push_spelled<A: Allocator>(
    alloc: Global,
    out: &mut Vec<u8, A>,
    answer: &Answer<A>,
) -> Result<(), NoMemory> {
    let mut line = String::new(alloc);
    push_answer(&mut line, answer)?;
    out.extend_from_slice(line.as_bytes())?;
    out.push(b';')?;
    Ok(())
}

/// Writes what is wrong with a record, where that is no refusal.
pub fn tell_fault<A: Allocator + Copy>(
    answer: &mut Vec<u8, A>,
    fault: RecordFault,
) -> Result<(), NoMemory> {
    match fault {
        RecordFault::NoMemory(refusal) => Err(refusal),
        RecordFault::Header => Ok(answer.extend_from_slice(b"no header")?),
        RecordFault::Line(line) => push_shown(answer, format_args!("line {line}")),
    }
}

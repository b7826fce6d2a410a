//! Records that are cut after each byte.

use crate::reading::tell_fault;
use memory::NoMemory;
use records::{RecordFault, read_entries, read_record};
use std::alloc::Allocator;
use tables::{Answers, push_shown};

/// The table of cuts.
pub struct Cuts;

impl Answers for Cuts {
    fn answer<A: Allocator + Copy>(
        &self,
        row: &[Vec<u8>],
        answer: &mut Vec<u8, A>,
    ) -> Result<(), NoMemory> {
        let [kind, text] = row else {
            return Ok(());
        };
        let has_entries = kind.as_slice() == b"entries".as_slice();
        for end in 0..=text.len() {
            let front = text.get(..end).unwrap_or(b"");
            let count = if has_entries {
                count_entries(*answer.allocator(), front)
            } else {
                count_answers(*answer.allocator(), front)
            };
            tell_count(answer, count)?;
        }
        Ok(())
    }
}

/// How many answers a record has.
fn count_answers<A: Allocator + Copy>(alloc: A, text: &[u8]) -> Result<usize, RecordFault> {
    Ok(read_record(alloc, text)?.len())
}

/// How many entries a record has.
fn count_entries<A: Allocator + Copy>(alloc: A, text: &[u8]) -> Result<usize, RecordFault> {
    Ok(read_entries(alloc, text)?.len())
}

/// Writes a number, or what is wrong.
fn tell_count<A: Allocator + Copy>(
    answer: &mut Vec<u8, A>,
    count: Result<usize, RecordFault>,
) -> Result<(), NoMemory> {
    match count {
        Ok(count) => push_shown(answer, count)?,
        Err(fault) => tell_fault(answer, fault)?,
    }
    Ok(answer.push(b';')?)
}

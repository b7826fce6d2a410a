//! Records that are written, to writers that fail after each number of bytes.

use crate::short::{Short, is_front};
use memory::NoMemory;
use records::{Counted, read_entries, read_record, write_entries, write_record};
use std::alloc::Allocator;
use std::cell::Cell;
use tables::{Answers, push_shown};

/// The table of records that are written.
pub struct Written;

impl Answers for Written {
    fn answer<A: Allocator + Copy>(
        &self,
        row: &[Vec<u8>],
        answer: &mut Vec<u8, A>,
    ) -> Result<(), NoMemory> {
        let [kind, text, written] = row else {
            return Ok(());
        };
        let is_of_answers = kind.as_slice() == b"answers".as_slice();
        let mut well = 0u64;
        for room in 0..=written.len() {
            let mut taken = vec![in *answer.allocator(); 0u8; room]?;
            let is_well = if is_of_answers {
                is_record_written(*answer.allocator(), text, written, &mut taken)
            } else {
                are_entries_written(*answer.allocator(), text, written, &mut taken)
            };
            well = well.saturating_add(if is_well { 1 } else { 0 });
        }
        push_shown(answer, well)
    }
}

/// Whether the answers of a record are written as this text, as far as there is room for it.
fn is_record_written<A: Allocator + Copy>(
    alloc: A,
    record: &[u8],
    text: &[u8],
    taken: &mut [u8],
) -> bool {
    let Ok(answers) = read_record(alloc, record) else {
        return false;
    };
    let room = taken.len();
    let late = Cell::new(0);
    let mut sink = Short {
        inner: Counted::new(&mut *taken),
        late: &late,
    };
    let has_failed = write_record(&answers, &mut sink).is_err();
    drop(sink);
    has_failed == (room < text.len()) && late.get() == 0 && is_front(taken, text, room)
}

/// Whether the entries of a record are written as this text, as far as there is room for it.
fn are_entries_written<A: Allocator + Copy>(
    alloc: A,
    record: &[u8],
    text: &[u8],
    taken: &mut [u8],
) -> bool {
    let Ok(entries) = read_entries(alloc, record) else {
        return false;
    };
    let room = taken.len();
    let late = Cell::new(0);
    let mut sink = Short {
        inner: Counted::new(&mut *taken),
        late: &late,
    };
    let has_failed = write_entries(&entries, &mut sink).is_err();
    drop(sink);
    has_failed == (room < text.len()) && late.get() == 0 && is_front(taken, text, room)
}

//! The digits of arrivals, which are converted many at a time and the last ones one by one.

use crate::reading::tell_fault;
use acts::{Answer, Id};
use memory::NoMemory;
use records::{Counted, RecordFault, read_record, write_record};
use std::alloc::Allocator;
use tables::{Answers, name, number, push_shown};

/// What stands before the digits of an arrival in its record.
const FRONT: &[u8] = b"rx-record 1\narrive exp4 ";

/// The table of digits.
pub struct Digits;

impl Answers for Digits {
    fn answer<A: Allocator + Copy>(
        &self,
        row: &[Vec<u8>],
        answer: &mut Vec<u8, A>,
    ) -> Result<(), NoMemory> {
        let [kind, first, size, field] = row else {
            return Ok(());
        };
        let (first, size) = (number(first), number(size));
        match name(kind) {
            "again" => tell_again(answer, first, size),
            "odd" => tell_odd(answer, first, size),
            "taken" => tell_taken(answer, first, size, number(field) as usize),
            "others" => tell_others(answer, first, size, field),
            _ => Ok(()),
        }
    }
}

/// Bytes from `first` on, each number that a byte can be in turn.
fn bytes_from<A: Allocator>(alloc: A, first: u64, size: u64) -> Result<Vec<u8, A>, NoMemory> {
    let mut bytes = Vec::new(alloc);
    let mut byte = first.to_le_bytes()[0];
    for _ in 0..size {
        bytes.push(byte)?;
        byte = byte.wrapping_add(1);
    }
    Ok(bytes)
}

/// The record of the arrival of bytes, whose digits are formatted one by one.
fn record_of<A: Allocator + Copy>(alloc: A, bytes: &[u8]) -> Result<Vec<u8, A>, NoMemory> {
    let mut text = Vec::from_slice(alloc, FRONT)?;
    for byte in bytes {
        push_shown(&mut text, format_args!("{byte:02x}"))?;
    }
    text.push(b'\n')?;
    Ok(text)
}

/// The record of the arrival of bytes from `first` on.
fn record_from<A: Allocator + Copy>(
    alloc: A,
    first: u64,
    size: u64,
) -> Result<Vec<u8, A>, NoMemory> {
    record_of(alloc, &bytes_from(alloc, first, size)?)
}

/// Reads a record, and writes whether its answer is the arrival of these bytes and whether it is
/// written again as it was.
fn tell_again<A: Allocator + Copy>(
    answer: &mut Vec<u8, A>,
    first: u64,
    size: u64,
) -> Result<(), NoMemory> {
    let bytes = bytes_from(*answer.allocator(), first, size)?;
    let record = record_of(*answer.allocator(), &bytes)?;
    let answers = match read_record(*answer.allocator(), &record) {
        Ok(answers) => answers,
        Err(fault) => return tell_fault(answer, fault),
    };
    let mut taken = vec![in *answer.allocator(); 0u8; record.len()]?;
    let mut sink = Counted::new(&mut taken[..]);
    let is_written = write_record(&answers, &mut sink).is_ok();
    drop(sink);
    let is_same = is_written && taken == record;
    let is_read = is_arrival(&answers, &bytes);
    push_shown(answer, format_args!("{is_read} {is_same}"))
}

/// Whether the one answer is the arrival of these bytes.
fn is_arrival<A: Allocator>(answers: &[Answer<A>], bytes: &[u8]) -> bool {
    match answers {
        [Answer::Arrive(Id(4), came)] => came.as_slice() == bytes,
        _ => false,
    }
}

/// Writes what is wrong with a record that has one digit more.
fn tell_odd<A: Allocator + Copy>(
    answer: &mut Vec<u8, A>,
    first: u64,
    size: u64,
) -> Result<(), NoMemory> {
    let mut text = record_from(*answer.allocator(), first, size)?;
    let _newline = text.pop();
    text.extend_from_slice(b"0\n")?;
    match fault_of(*answer.allocator(), &text) {
        Some(fault) => tell_fault(answer, fault),
        None => Ok(answer.extend_from_slice(b"read")?),
    }
}

/// Writes each byte with which a record is read, where it stands in the place of the digit of this
/// number.
fn tell_taken<A: Allocator + Copy>(
    answer: &mut Vec<u8, A>,
    first: u64,
    size: u64,
    number: usize,
) -> Result<(), NoMemory> {
    let record = record_from(*answer.allocator(), first, size)?;
    for byte in 0..=u8::MAX {
        let text = with_byte(*answer.allocator(), &record, number, byte)?;
        if fault_of(*answer.allocator(), &text).is_none() {
            answer.push(byte)?;
        }
    }
    Ok(())
}

/// Writes how often the second line is wrong where one of these bytes stands in the place of one
/// digit, and whether the record itself is read.
fn tell_others<A: Allocator + Copy>(
    answer: &mut Vec<u8, A>,
    first: u64,
    size: u64,
    others: &[u8],
) -> Result<(), NoMemory> {
    let record = record_from(*answer.allocator(), first, size)?;
    let mut refused = 0u64;
    for other in others {
        let count = count_refused(*answer.allocator(), &record, *other)?;
        refused = refused.saturating_add(count);
    }
    let is_read = fault_of(*answer.allocator(), &record).is_none();
    push_shown(answer, format_args!("{refused} refused, {is_read}"))
}

/// In how many places of a digit this byte makes the second line of a record wrong.
fn count_refused<A: Allocator + Copy>(alloc: A, record: &[u8], byte: u8) -> Result<u64, NoMemory> {
    let mut refused = 0u64;
    for number in 0..record.len().saturating_sub(FRONT.len()).saturating_sub(1) {
        let text = with_byte(alloc, record, number, byte)?;
        if matches!(fault_of(alloc, &text), Some(RecordFault::Line(2))) {
            refused = refused.saturating_add(1);
        }
    }
    Ok(refused)
}

/// A record in which this byte stands in the place of a digit, by its number.
fn with_byte<A: Allocator>(
    alloc: A,
    record: &[u8],
    number: usize,
    byte: u8,
) -> Result<Vec<u8, A>, NoMemory> {
    let mut text = Vec::from_slice(alloc, record)?;
    if let Some(digit) = text.get_mut(FRONT.len().saturating_add(number)) {
        *digit = byte;
    }
    Ok(text)
}

/// What is wrong with a record, if something is.
fn fault_of<A: Allocator + Copy>(alloc: A, text: &[u8]) -> Option<RecordFault> {
    match read_record(alloc, text) {
        Ok(_) => None,
        Err(fault) => Some(fault),
    }
}

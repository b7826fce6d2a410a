//! The statuses and lines of the ends of a call, and what the library hands on of the crates below
//! it.

use crate::field;
use crate::played::{MOST, written};
use acts::{Act, Answer, World};
use memory::NoMemory;
use std::alloc::{Allocator, Global};
use tables::{name, number, push_angled, push_shown};
use worlds::{Counted, Live, Outcome, read_entries, read_record, write_entries, write_record};

/// Writes the status and the line of an outcome.
pub fn tell_outcome<A: Allocator + Copy>(
    row: &[Vec<u8>],
    answer: &mut Vec<u8, A>,
) -> Result<(), NoMemory> {
    let outcome = outcome_of(name(field(row, 0)), field(row, 1), field(row, 2));
    let mut line = [0u8; MOST];
    outcome.write_line(&mut Counted::new(&mut line[..]));
    push_shown(answer, format_args!("{} ", outcome.status()))?;
    Ok(answer.extend_from_slice(written(&line))?)
}

/// The outcome of this kind; the fields say its number, or the name of its file and a line.
fn outcome_of<'a>(kind: &str, first: &'a [u8], second: &[u8]) -> Outcome<'a> {
    match kind {
        "exit" => Outcome::Exit(signed(first)),
        "error" => Outcome::ScriptError,
        "usage" => Outcome::Usage,
        "open" => Outcome::CannotOpen(first),
        "limit" => Outcome::Limit,
        "output" => Outcome::OutputFailed,
        "unfit" => Outcome::UnfitAnswer(number(first)),
        "nomore" => Outcome::NoMoreAnswers,
        _ => Outcome::BadRecord {
            name: first,
            line: number(second),
        },
    }
}

/// The number that a field spells, or 0; it may be below 0.
fn signed(field: &[u8]) -> i64 {
    match std::str::from_utf8(field) {
        Ok(text) => text.parse::<i64>().unwrap_or(0),
        Err(_) => 0,
    }
}

/// Writes a record of version 1 as it was read.
pub fn tell_record<A: Allocator + Copy>(
    rt: &HostRuntime,
    row: &[Vec<u8>],
    answer: &mut Vec<u8, A>,
) -> Result<(), NoMemory> {
    let mut room = [0u8; MOST];
    match copied_record(rt.alloc(), field(row, 1), &mut room) {
        Some(()) => Ok(answer.extend_from_slice(written(&room))?),
        None => Ok(answer.extend_from_slice(b"none")?),
    }
}

/// Reads a record, and writes it again.
fn copied_record(alloc: Global, record: &[u8], room: &mut [u8]) -> Option<()> {
    let Ok(answers) = read_record(alloc, record) else {
        return None;
    };
    write_record(&answers, &mut Counted::new(room)).ok()
}

/// Writes a record of version 2 as it was read.
pub fn tell_entries<A: Allocator + Copy>(
    rt: &HostRuntime,
    row: &[Vec<u8>],
    answer: &mut Vec<u8, A>,
) -> Result<(), NoMemory> {
    let mut room = [0u8; MOST];
    match copied_entries(rt.alloc(), field(row, 1), &mut room) {
        Some(()) => Ok(answer.extend_from_slice(written(&room))?),
        None => Ok(answer.extend_from_slice(b"none")?),
    }
}

/// Reads the entries of a record, and writes them again.
fn copied_entries(alloc: Global, record: &[u8], room: &mut [u8]) -> Option<()> {
    let Ok(entries) = read_entries(alloc, record) else {
        return None;
    };
    write_entries(&entries, &mut Counted::new(room)).ok()
}

/// Writes what two acts of the live world write, one to each output.
pub fn tell_acts<A: Allocator + Copy>(
    rt: &HostRuntime,
    row: &[Vec<u8>],
    answer: &mut Vec<u8, A>,
) -> Result<(), NoMemory> {
    let said = Act::Out(Vec::from_slice(rt.alloc(), field(row, 1))?);
    let told = Act::Err(Vec::from_slice(rt.alloc(), field(row, 2))?);
    let (mut out, mut err) = ([0u8; MOST], [0u8; MOST]);
    if are_done(rt, &said, &told, &mut out, &mut err) {
        push_angled(answer, written(&out))?;
        push_angled(answer, written(&err))?;
    }
    Ok(())
}

/// Whether each of two acts is done in a live world with this room for what it writes.
fn are_done(
    rt: &HostRuntime,
    said: &Act<Global>,
    told: &Act<Global>,
    out: &mut [u8],
    err: &mut [u8],
) -> bool {
    let Ok(mut world) = Live::new(rt, out, err) else {
        return false;
    };
    let is_said = matches!(world.act(said), Answer::Done);
    is_said && matches!(world.act(told), Answer::Done)
}

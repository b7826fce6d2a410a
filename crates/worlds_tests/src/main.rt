//! Tests of `worlds`, apart from it so that its proofs are not made twice: tables of calls of the
//! program, of scripts under records and in the live world, and of the parts that it hands on.
#![tactic(auto)]

mod calls;
mod lived;
mod parts;
mod played;

use crate::calls::{tell_call, tell_read, tell_reread, tell_words};
use crate::lived::{tell_live, tell_replayed, tell_why};
use crate::parts::{tell_acts, tell_entries, tell_outcome, tell_record};
use crate::played::{run_starved, tell_again, tell_made, tell_play};
use memory::NoMemory;
use std::alloc::Allocator;
use std::io;
use std::process::ExitCode;
use tables::{Answers, Memory, name, run_table};

/// The tables, with the memory that their rows are given.
const TABLES: [(&str, Memory); 5] = [
    ("calls", Memory::Whole),
    ("input", Memory::RefusedInTurn),
    ("played", Memory::Whole),
    ("lived", Memory::Whole),
    ("parts", Memory::Whole),
];

/// What answers the rows of all tables. The first field of a row says what is done.
#[derive(Drop)]
struct Rows<'r> {
    rt: &'r HostRuntime,
}

impl Answers for Rows<'_> {
    fn answer<A: Allocator + Copy>(
        &self,
        row: &[Vec<u8>],
        answer: &mut Vec<u8, A>,
    ) -> Result<(), NoMemory> {
        match name(field(row, 0)) {
            "call" => tell_call(self.rt, row, answer),
            "lasting" | "passing" => tell_reread(self.rt, row, answer),
            "words" => tell_words(row, answer),
            "read" => tell_read(row, answer),
            "play" => tell_play(self.rt, row, answer),
            "made" => tell_made(self.rt, row, answer),
            "again" => tell_again(self.rt, row, answer),
            "live" => tell_live(self.rt, row, answer),
            "replayed" => tell_replayed(self.rt, row, answer),
            "why" => tell_why(self.rt, row, answer),
            "record" => tell_record(self.rt, row, answer),
            "entries" => tell_entries(self.rt, row, answer),
            "acts" => tell_acts(self.rt, row, answer),
            _ => tell_outcome(row, answer),
        }
    }
}

/// The field of a row at a place, or an empty one where there is none.
pub fn field(row: &[Vec<u8>], place: usize) -> &[u8] {
    match row.get(place) {
        Some(field) => field,
        None => &[],
    }
}

/// The fields of a row from a place on.
pub fn fields(row: &[Vec<u8>], place: usize) -> &[Vec<u8>] {
    row.get(place..).unwrap_or(&[])
}

fn main(rt: HostRuntime) -> io::Result<ExitCode> {
    let rows = Rows { rt: &rt };
    let mut is_well = true;
    for (name, memory) in TABLES {
        is_well &= run_table(&rt, &rows, name, memory)?;
    }
    is_well &= run_starved(&rt)?;
    Ok(ExitCode::from(if is_well { 0 } else { 1 }))
}

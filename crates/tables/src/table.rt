//! Running the rows of a table.

use crate::row::{ESCAPED, is_comment, read_fields};
use memory::NoMemory;
use percent_encoding::percent_encode;
use refusal::Refusing;
use std::alloc::{Allocator, Global};
use std::rt::Files;
use std::{fs, io};

/// How many requests for memory a row makes at most, where each is refused in turn.
const MOST_REQUESTS: u64 = 1_000;

/// What answers the rows of a table.
pub trait Answers {
    /// Writes the answer to a row, of which the field that says what is wanted has been taken off.
    fn answer<A: Allocator + Copy>(
        &self,
        row: &[Vec<u8>],
        answer: &mut Vec<u8, A>,
    ) -> Result<(), NoMemory>;
}

/// What memory the rows of a table are given.
#[derive(Clone, Copy, PartialEq, Eq)]
pub enum Memory {
    /// All that they ask for.
    Whole,
    /// All of them in the end, and before that all but one, where each in turn is the one refused.
    RefusedInTurn,
}

/// How many rows were run, how many requests of theirs were refused, and how many rows failed.
#[derive(Clone, Copy)]
struct Counts {
    rows: u64,
    refusals: u64,
    failed: u64,
}

/// Runs the rows of a file, and prints those that fail and how many rows there were. Gives whether
/// none failed.
///
/// A row fails if its answer is not the one that is wanted, or if it is answered although a request
/// for memory was refused.
pub fn run_table<R: Files + Print + AllocGlobal, T: Answers>(
    rt: &R,
    table: &T,
    path: &str,
    memory: Memory,
) -> io::Result<bool> {
    let mut counts = Counts {
        rows: 0,
        refusals: 0,
        failed: 0,
    };
    let text = fs::read_to_string(rt, path)?;
    for line in text.lines() {
        if !is_comment(line) {
            run_row(rt, &mut counts, table, line, memory)?;
        }
    }
    let Counts {
        rows,
        refusals,
        failed,
    } = counts;
    println!(rt; "{path}: {rows} rows, {refusals} refusals, {failed} failed")?;
    Ok(failed == 0)
}

/// Runs the row of a line.
fn run_row<R: Print + AllocGlobal, T: Answers>(
    rt: &R,
    counts: &mut Counts,
    table: &T,
    line: &str,
    memory: Memory,
) -> io::Result<()> {
    counts.rows = counts.rows.saturating_add(1);
    let fields = read_fields(rt.alloc(), line)?;
    let Some((wanted, row)) = fields.split_last() else {
        return Ok(());
    };
    let refusals = match memory {
        Memory::Whole => answers_as_wanted(rt.alloc(), table, row, wanted),
        Memory::RefusedInTurn => refused_in_turn(rt.alloc(), table, row, wanted),
    };
    match refusals {
        Some(many) => counts.refusals = counts.refusals.saturating_add(many),
        None => {
            counts.failed = counts.failed.saturating_add(1);
            println!(rt; "FAILED {line}")?;
            tell_answer(rt, table, row)?;
        }
    }
    Ok(())
}

/// Gives 0 refusals if a row's answer is as wanted, else `None`.
fn answers_as_wanted<T: Answers>(
    alloc: Global,
    table: &T,
    row: &[Vec<u8>],
    wanted: &[u8],
) -> Option<u64> {
    let mut answer = Vec::new(alloc);
    let is_answered = table.answer(row, &mut answer).is_ok();
    if is_answered && answer.as_slice() == wanted {
        Some(0)
    } else {
        None
    }
}

/// How many requests for memory a row makes, if its answer is as wanted where all are granted, and
/// if there is no answer where one of them is refused; else `None`.
fn refused_in_turn<T: Answers>(
    alloc: Global,
    table: &T,
    row: &[Vec<u8>],
    wanted: &[u8],
) -> Option<u64> {
    let heap = Refusing::new(alloc);
    for before in 0..MOST_REQUESTS {
        let refused = heap.refused();
        heap.refuse_nth(before.saturating_add(1));
        let mut answer = Vec::new(&heap);
        let is_answered = table.answer(row, &mut answer).is_ok();
        let is_refused = refused < heap.refused();
        if is_answered == is_refused {
            return None;
        }
        if is_answered {
            return if answer.as_slice() == wanted {
                Some(before)
            } else {
                None
            };
        }
    }
    None
}

/// Prints the answer to a row.
fn tell_answer<R: Print + AllocGlobal, T: Answers>(
    rt: &R,
    table: &T,
    row: &[Vec<u8>],
) -> io::Result<()> {
    let mut answer = Vec::new(rt.alloc());
    match table.answer(row, &mut answer) {
        Ok(()) => println!(rt; "  came {}", percent_encode(&answer, ESCAPED))?,
        Err(_) => println!(rt; "  came no answer")?,
    }
    Ok(())
}

//! Limits, ids and numbers.

use acts::decimal::{push_decimal, read_decimal};
use acts::{Id, Limits};
use memory::NoMemory;
use std::alloc::Allocator;
use tables::{Answers, number, push_shown};

/// The table of limits, ids and numbers.
pub struct Numbers;

impl Answers for Numbers {
    fn answer<A: Allocator + Copy>(
        &self,
        row: &[Vec<u8>],
        answer: &mut Vec<u8, A>,
    ) -> Result<(), NoMemory> {
        let [kind, text] = row else {
            return Ok(());
        };
        let is_there = match kind.as_slice() {
            b"limit" => tell_limit(answer, number(text))?,
            b"id" => tell_id(answer, text)?,
            _ => tell_number(answer, text)?,
        };
        if !is_there {
            answer.extend_from_slice(b"none")?;
        }
        Ok(())
    }
}

/// Writes how many ticks a limit of this many has, and says whether there is one.
fn tell_limit<A: Allocator + Copy>(answer: &mut Vec<u8, A>, ticks: u64) -> Result<bool, NoMemory> {
    let Some(limits) = Limits::new(ticks) else {
        return Ok(false);
    };
    push_shown(answer, limits.ticks)?;
    Ok(true)
}

/// Writes the number of the id that a text names, and how the id is spelled, and says whether there
/// is one.
fn tell_id<A: Allocator + Copy>(answer: &mut Vec<u8, A>, text: &[u8]) -> Result<bool, NoMemory> {
    let Some(id) = Id::read(text) else {
        return Ok(false);
    };
    push_shown(answer, id.0)?;
    answer.push(b' ')?;
    let spelled = id.text(*answer.allocator())?;
    answer.extend_from_slice(&spelled)?;
    Ok(true)
}

/// Writes the number that a text spells, and its digits behind a word, and says whether there is
/// one. A refusal is handed on where it has left the word as it was.
fn tell_number<A: Allocator + Copy>(
    answer: &mut Vec<u8, A>,
    text: &[u8],
) -> Result<bool, NoMemory> {
    let Some(number) = read_decimal(text) else {
        return Ok(false);
    };
    push_shown(answer, number)?;
    let mut line = Vec::from_slice(*answer.allocator(), b" failed ")?;
    line.shrink_to_fit();
    match push_decimal(&mut line, number) {
        Err(refusal) if line.as_slice() == b" failed ".as_slice() => return Err(refusal),
        _ => answer.extend_from_slice(&line)?,
    }
    Ok(true)
}

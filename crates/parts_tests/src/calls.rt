//! The words of calls.

use arguments::Arguments;
use memory::NoMemory;
use std::alloc::Allocator;
use tables::{Answers, push_angled, push_shown};

/// The table of calls, whose rows are their words.
pub struct Calls;

impl Answers for Calls {
    fn answer<A: Allocator + Copy>(
        &self,
        row: &[Vec<u8>],
        answer: &mut Vec<u8, A>,
    ) -> Result<(), NoMemory> {
        match Arguments::read(row) {
            Some(call) => tell_call(answer, &call),
            None => Ok(answer.extend_from_slice(b"usage")?),
        }
    }
}

/// Writes what a call asks for: the lines of `-c`, the record that is read, the ticks, the record
/// that is made, and each word of the script.
fn tell_call<A: Allocator + Copy, B: Allocator>(
    answer: &mut Vec<u8, A>,
    call: &Arguments<'_, B>,
) -> Result<(), NoMemory> {
    let commands = call.commands(*answer.allocator())?;
    answer.extend_from_slice(&commands)?;
    answer.extend_from_slice(call.replay.unwrap_or(b"live"))?;
    answer.push(b' ')?;
    push_shown(answer, call.limits.ticks)?;
    if let Some(name) = call.made {
        answer.extend_from_slice(b" >")?;
        answer.extend_from_slice(name)?;
    }
    tell_words(answer, call.script)
}

fn tell_words<A: Allocator, B: Allocator>(
    answer: &mut Vec<u8, A>,
    words: &[Vec<u8, B>],
) -> Result<(), NoMemory> {
    for word in words {
        answer.push(b' ')?;
        push_angled(answer, word)?;
    }
    Ok(())
}

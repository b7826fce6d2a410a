//! Match buffers, by their calls.

use matchbuf::{MatchBuf, MatchBufError};
use memory::NoMemory;
use std::alloc::Allocator;
use tables::{Answers, number, push_angled, push_shown};

/// The table of buffers.
pub struct Buffers;

impl Answers for Buffers {
    fn answer<A: Allocator + Copy>(
        &self,
        row: &[Vec<u8>],
        answer: &mut Vec<u8, A>,
    ) -> Result<(), NoMemory> {
        let [max, calls @ ..] = row else {
            return Ok(());
        };
        match MatchBuf::new(*answer.allocator(), size_of(max)) {
            Ok(mut buffer) => tell_calls(answer, &mut buffer, calls),
            Err(error) => tell_error(answer, error),
        }
    }
}

/// The size that a field spells, or 0.
pub fn size_of(field: &[u8]) -> u32 {
    match u32::try_from(number(field)) {
        Ok(size) => size,
        Err(_) => 0,
    }
}

/// Writes why there is no such buffer. A refusal is handed on, where it has the text of one.
pub fn tell_error<A: Allocator + Copy>(
    answer: &mut Vec<u8, A>,
    error: MatchBufError,
) -> Result<(), NoMemory> {
    let text = format!(in *answer.allocator(); "{error}")?;
    match error {
        MatchBufError::NoMemory(refusal) if text.as_str() == "no memory" => Err(refusal),
        _ => Ok(answer.extend_from_slice(text.as_bytes())?),
    }
}

/// Writes what a new buffer shows, and what it shows after each call.
fn tell_calls<A: Allocator + Copy>(
    answer: &mut Vec<u8, A>,
    buffer: &mut MatchBuf<A>,
    calls: &[Vec<u8>],
) -> Result<(), NoMemory> {
    tell_buffer(answer, buffer)?;
    for call in calls {
        make_call(answer, buffer, call)?;
        tell_buffer(answer, buffer)?;
    }
    Ok(())
}

/// Writes a buffer's window, how many bytes it holds and may hold, and whether it is full.
fn tell_buffer<A: Allocator + Copy>(
    answer: &mut Vec<u8, A>,
    buffer: &mut MatchBuf<A>,
) -> Result<(), NoMemory> {
    let (held, max) = (buffer.len(), buffer.max());
    let word = if buffer.is_full() { "full" } else { "free" };
    push_angled(answer, buffer.window())?;
    push_shown(answer, format_args!(" {held} of {max} {word};"))
}

/// Makes a call: `+BYTES` arrive, `-NUMBER` of them are taken, `=NUMBER` is the new size.
fn make_call<A: Allocator + Copy>(
    answer: &mut Vec<u8, A>,
    buffer: &mut MatchBuf<A>,
    call: &[u8],
) -> Result<(), NoMemory> {
    match call {
        [b'+', bytes @ ..] => buffer.arrive(bytes),
        [b'-', digits @ ..] => take(buffer, number(digits) as usize),
        [b'=', digits @ ..] => set_max(answer, buffer, size_of(digits))?,
        _ => {}
    }
    Ok(())
}

/// Takes this many bytes, where the buffer holds them.
fn take<A: Allocator>(buffer: &mut MatchBuf<A>, count: usize) {
    if count <= buffer.len() {
        buffer.take(count);
    }
}

/// Sets a size. A refusal is handed on where it has left the buffer as it was.
fn set_max<A: Allocator + Copy>(
    answer: &mut Vec<u8, A>,
    buffer: &mut MatchBuf<A>,
    size: u32,
) -> Result<(), NoMemory> {
    let max = buffer.max();
    let window = Vec::from_slice(*answer.allocator(), buffer.window())?;
    let Err(error) = buffer.set_max(size) else {
        return Ok(());
    };
    if buffer.max() == max && buffer.window() == window.as_slice() {
        return tell_error(answer, error);
    }
    Ok(answer.extend_from_slice(b"changed")?)
}

//! Long streams through match buffers, which take a fraction of a second each.

use crate::buffers::{size_of, tell_error};
use matchbuf::MatchBuf;
use memory::NoMemory;
use std::alloc::Allocator;
use tables::{Answers, push_shown};

/// The table of long streams.
pub struct Streams;

impl Answers for Streams {
    fn answer<A: Allocator + Copy>(
        &self,
        row: &[Vec<u8>],
        answer: &mut Vec<u8, A>,
    ) -> Result<(), NoMemory> {
        let [kind, max] = row else {
            return Ok(());
        };
        let mut buffer = match MatchBuf::new(*answer.allocator(), size_of(max)) {
            Ok(buffer) => buffer,
            Err(error) => return tell_error(answer, error),
        };
        match kind.as_slice() {
            b"pieces" => tell_pieces(answer, &mut buffer),
            _ => tell_bytes(answer, &mut buffer),
        }
    }
}

/// Writes how many bytes the windows show after each of 50,000 pieces of 1,000 bytes, and in how
/// many the newest piece does not stand last.
fn tell_pieces<A: Allocator + Copy>(
    answer: &mut Vec<u8, A>,
    buffer: &mut MatchBuf<A>,
) -> Result<(), NoMemory> {
    let mut piece = [b'.'; 1_000];
    let mut shown = 0u64;
    let mut wrong = 0u64;
    for number in 0..50_000u32 {
        piece[0] = number.to_le_bytes()[0];
        buffer.arrive(&piece);
        let window = buffer.window();
        shown = shown.saturating_add(window.len() as u64);
        if window.get(window.len().saturating_sub(1_000)) != Some(&piece[0]) {
            wrong = wrong.saturating_add(1);
        }
    }
    push_shown(answer, format_args!("{shown} bytes, {wrong} wrong"))
}

/// Writes, of 100,000 single bytes that arrive at a buffer which 2,000 pieces have filled, after
/// how many the window is not full or does not end by the byte. To move 1,000,000 bytes each time
/// would take longer than a test may.
fn tell_bytes<A: Allocator + Copy>(
    answer: &mut Vec<u8, A>,
    buffer: &mut MatchBuf<A>,
) -> Result<(), NoMemory> {
    fill(buffer);
    let word = if buffer.is_full() { "full" } else { "free" };
    let size = buffer.max() as usize;
    let mut wrong = 0u64;
    for number in 0..100_000u32 {
        let newest = number.to_le_bytes()[0];
        buffer.arrive(&[newest]);
        let window = buffer.window();
        if window.len() != size || window.last() != Some(&newest) {
            wrong = wrong.saturating_add(1);
        }
    }
    push_shown(answer, format_args!("{word}, {wrong} wrong"))
}

/// Lets 2,000 pieces of 1,000 bytes arrive.
fn fill<A: Allocator>(buffer: &mut MatchBuf<A>) {
    let piece = [b'.'; 1_000];
    for _ in 0..2_000u32 {
        buffer.arrive(&piece);
    }
}

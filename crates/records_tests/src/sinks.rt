//! Sinks over writers that are interrupted, take less than a text, or fail.

use memory::NoMemory;
use records::{Counted, Sink, put_all};
use std::alloc::Allocator;
use std::io::{self, ErrorKind, Write};
use tables::{Answers, number, push_angled, push_shown};

/// A writer that is interrupted `interruptions` times before each write, takes two bytes at a time,
/// and takes nothing or fails where it has no room left.
#[derive(Drop)]
struct Halting<'a> {
    taken: &'a mut [u8],
    interruptions: u64,
    left: u64,
    fails: bool,
}

impl Write for Halting<'_> {
    fn write(&mut self, bytes: &[u8]) -> io::Result<usize> {
        if self.left > 0 {
            self.left -= 1;
            return Err(io::Error::from(ErrorKind::Interrupted));
        }
        self.left = self.interruptions;
        let count = bytes.len().min(2);
        let taken = self.taken.write(&bytes[..count])?;
        if taken == 0 && self.fails {
            return Err(io::Error::from(ErrorKind::Other));
        }
        Ok(taken)
    }

    fn flush(&mut self) -> io::Result<()> {
        Ok(())
    }
}

/// The table of sinks.
pub struct Sinks;

impl Answers for Sinks {
    fn answer<A: Allocator + Copy>(
        &self,
        row: &[Vec<u8>],
        answer: &mut Vec<u8, A>,
    ) -> Result<(), NoMemory> {
        match row {
            [interruptions, room, how] => {
                let fails = how.as_slice() == b"fails".as_slice();
                tell_halting(answer, number(interruptions), number(room) as usize, fails)
            }
            [texts] => tell_puts(answer, texts),
            _ => Ok(()),
        }
    }
}

/// Writes what a writer with this much room has of two texts, whether its sink has failed, and why.
fn tell_halting<A: Allocator + Copy>(
    answer: &mut Vec<u8, A>,
    interruptions: u64,
    room: usize,
    fails: bool,
) -> Result<(), NoMemory> {
    let mut taken = vec![in *answer.allocator(); 0u8; room]?;
    let mut sink = Counted::new(Halting {
        taken: &mut taken[..],
        interruptions,
        left: interruptions,
        fails,
    });
    put_all(&mut sink, b"abcde");
    put_all(&mut sink, b"f");
    let has_failed = sink.failed();
    let why = reason(&sink);
    drop(sink);
    push_angled(answer, &taken)?;
    push_shown(answer, format_args!(" {has_failed} {why}"))
}

/// Why a sink has failed, in words.
fn reason<S: Sink>(sink: &S) -> &'static str {
    match sink.fault() {
        Some(error) if error.kind() == ErrorKind::Other => "other",
        Some(_) => "another",
        None => "none",
    }
}

/// Puts texts of one byte each, or of none, into a sink without room, and writes how much of each
/// it takes and whether it has failed.
fn tell_puts<A: Allocator + Copy>(answer: &mut Vec<u8, A>, texts: &[u8]) -> Result<(), NoMemory> {
    let mut taken = [0u8; 1];
    let mut sink = Counted::new(&mut taken[..0]);
    for byte in texts {
        let count = if *byte == b'-' {
            sink.put(b"")
        } else {
            sink.put(&[*byte])
        };
        let has_failed = sink.failed();
        push_shown(answer, format_args!("{count} {has_failed};"))?;
    }
    Ok(())
}

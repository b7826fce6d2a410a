//! Calls of the program, the files that they name, and what is read for them from outside.

use crate::{field, fields};
use memory::NoMemory;
use std::alloc::Allocator;
use std::cell::Cell;
use std::env::FillError;
use std::io::{self, ErrorKind, Read};
use std::rt::Env;
use tables::{number, push_angled, push_shown};
use worlds::folder::{Disk, Folder};
use worlds::input::{read_all, read_words};
use worlds::program::perform;
use worlds::{Counted, Unread};

/// A folder with one file, which gives one text when it is opened first, and another one later.
#[derive(Drop)]
struct Shelf<'a> {
    first: &'a [u8],
    later: &'a [u8],
    is_lasting: bool,
    opened: Cell<bool>,
}

impl<'a> Folder for Shelf<'a> {
    type File = &'a [u8];

    type Made = Vec<u8>;

    type Standard = &'a [u8];

    ghost use Rattle.std.specs.Prelude.{⊤};

    ghost opens = { λ _ _ _. ⊤ };

    ghost makes = { λ _ _ _. ⊤ };

    ghost same = { λ _ _ _ _. ⊤ };

    fn open(&self, name: &str) -> io::Result<&'a [u8]> {
        if name != "r" {
            return Err(io::Error::from(ErrorKind::NotFound));
        }
        if self.opened.get() {
            return Ok(self.later);
        }
        self.opened.set(true);
        Ok(self.first)
    }

    fn make(&self, _name: &str) -> io::Result<Vec<u8>> {
        Err(io::Error::from(ErrorKind::Other))
    }

    fn standard(&self) -> &'a [u8] {
        b""
    }

    fn is_lasting(&self, _name: &str) -> bool {
        self.is_lasting
    }

    fn is_same(&self, _first: &[u8], _second: &[u8]) -> bool {
        false
    }
}

/// Writes the status of a call, and what it writes to the two outputs.
pub fn tell_call<A: Allocator + Copy>(
    rt: &HostRuntime,
    row: &[Vec<u8>],
    answer: &mut Vec<u8, A>,
) -> Result<(), NoMemory> {
    tell_performed(rt, &Disk { rt }, fields(row, 1), answer)
}

/// Writes the same of a call whose record is in a file that may change while it is read.
pub fn tell_reread<A: Allocator + Copy>(
    rt: &HostRuntime,
    row: &[Vec<u8>],
    answer: &mut Vec<u8, A>,
) -> Result<(), NoMemory> {
    let files = Shelf {
        first: field(row, 1),
        later: field(row, 2),
        is_lasting: field(row, 0) == b"lasting".as_slice(),
        opened: Cell::new(false),
    };
    tell_performed(rt, &files, fields(row, 3), answer)
}

/// Writes the status of a call with these files, and what it writes to the two outputs.
fn tell_performed<F: Folder, A: Allocator + Copy>(
    rt: &HostRuntime,
    files: &F,
    words: &[Vec<u8>],
    answer: &mut Vec<u8, A>,
) -> Result<(), NoMemory> {
    let (mut printed, mut told) = (Vec::new(rt.alloc()), Vec::new(rt.alloc()));
    let status = performed(rt, files, words, &mut printed, &mut told);
    push_call(answer, status, &printed, &told)
}

/// Performs a call, and gives its status.
fn performed<F: Folder>(
    rt: &HostRuntime,
    files: &F,
    words: &[Vec<u8>],
    printed: &mut Vec<u8>,
    told: &mut Vec<u8>,
) -> u8 {
    let (mut out, mut err) = (Counted::new(printed), Counted::new(told));
    perform(rt, files, words, &mut out, &mut err)
}

/// Writes a status, and then what was written to the two outputs.
fn push_call<A: Allocator + Copy>(
    answer: &mut Vec<u8, A>,
    status: u8,
    printed: &[u8],
    told: &[u8],
) -> Result<(), NoMemory> {
    push_shown(answer, format_args!("{status} "))?;
    answer.extend_from_slice(printed)?;
    Ok(answer.extend_from_slice(told)?)
}

/// The words of a call, the program's name first.
#[derive(Drop)]
struct Words<'a>(&'a [Vec<u8>]);

impl Env for Words<'_> {
    fn arg(&self, place: usize, room: &mut [u8]) -> Result<usize, FillError> {
        let Some(word) = self.0.get(place) else {
            return Err(FillError::NotPresent);
        };
        if room.len() < word.len() {
            return Err(FillError::TooLong);
        }
        room[..word.len()].copy_from_slice(word);
        Ok(word.len())
    }

    fn var(&self, _name: &str, _room: &mut [u8]) -> Result<usize, FillError> {
        Err(FillError::NotPresent)
    }

    fn var_at(&self, _place: usize, _room: &mut [u8]) -> Result<usize, FillError> {
        Err(FillError::NotPresent)
    }
}

/// Writes the arguments that are read of a call.
pub fn tell_words<A: Allocator + Copy>(
    row: &[Vec<u8>],
    answer: &mut Vec<u8, A>,
) -> Result<(), NoMemory> {
    match read_words(&Words(fields(row, 1)), *answer.allocator()) {
        Ok(words) => push_words(answer, &words),
        Err(fault) => push_unread(answer, fault),
    }
}

/// Writes words, each between angles.
fn push_words<A: Allocator + Copy>(
    answer: &mut Vec<u8, A>,
    words: &[Vec<u8, A>],
) -> Result<(), NoMemory> {
    for word in words {
        push_angled(answer, word)?;
    }
    Ok(())
}

/// Writes that nothing is read. A refusal of memory is handed on.
fn push_unread<A: Allocator + Copy>(
    answer: &mut Vec<u8, A>,
    fault: Unread,
) -> Result<(), NoMemory> {
    match fault {
        Unread::NoMemory(refusal) => Err(refusal),
        Unread::Refused => Ok(answer.extend_from_slice(b"refused")?),
    }
}

/// A reader that is interrupted once before each byte, and fails after some.
#[derive(Drop)]
struct Halting<'a> {
    bytes: &'a [u8],
    room: usize,
    interrupted: bool,
}

impl Read for Halting<'_> {
    fn read(&mut self, chunk: &mut [u8]) -> io::Result<usize> {
        self.interrupted = !self.interrupted;
        if self.interrupted {
            return Err(io::Error::from(ErrorKind::Interrupted));
        }
        if self.room == 0 {
            return Err(io::Error::from(ErrorKind::Other));
        }
        self.room -= 1;
        let taken = chunk.len().min(1);
        self.bytes.read(&mut chunk[..taken])
    }
}

/// Writes what is read of a text by a reader that is interrupted, and fails after so many reads.
pub fn tell_read<A: Allocator + Copy>(
    row: &[Vec<u8>],
    answer: &mut Vec<u8, A>,
) -> Result<(), NoMemory> {
    let mut reader = Halting {
        bytes: field(row, 1),
        room: number(field(row, 2)) as usize,
        interrupted: false,
    };
    match read_all(*answer.allocator(), &mut reader) {
        Ok(text) => push_angled(answer, &text),
        Err(fault) => push_unread(answer, fault),
    }
}

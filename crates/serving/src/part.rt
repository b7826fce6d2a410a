//! What is done with a connection.

use std::alloc::Allocator;
use std::io::{self, Read, Write};
use std::net::TcpStream;

/// How many bytes are read at a time.
const CHUNK: usize = 512;

/// What is done with a connection before it is closed.
#[derive(Clone, Copy, Debug, PartialEq, Eq)]
pub enum Part<'a> {
    /// A text is written to it.
    Say(&'a str),
    /// Nothing is written to it, and it stays open until the other side closes.
    Hush,
    /// What comes is handed back, until the other side closes.
    Echo,
    /// What comes is counted, until the other side closes.
    Count,
    /// Nothing is done.
    Shut,
}

impl<'a> Part<'a> {
    /// The part that words name: `say T`, `hush`, `echo`, `count` or `shut`.
    pub fn read<A: Allocator>(words: &'a [String<A>]) -> Option<Part<'a>> {
        match words {
            [name, text] if name.as_str() == "say" => Some(Part::Say(text.as_str())),
            [name] if name.as_str() == "hush" => Some(Part::Hush),
            [name] if name.as_str() == "echo" => Some(Part::Echo),
            [name] if name.as_str() == "count" => Some(Part::Count),
            [name] if name.as_str() == "shut" => Some(Part::Shut),
            _ => None,
        }
    }

    /// Plays the part on a connection, which is closed after it, and gives how many bytes came,
    /// where they are counted.
    pub fn play(self, mut stream: TcpStream) -> io::Result<Option<u64>> {
        match self {
            Part::Say(text) => stream.write_all(text.as_bytes()).map(|()| None),
            Part::Hush => hear_out(&mut stream).map(|_| None),
            Part::Echo => hand_back(&mut stream).map(|()| None),
            Part::Count => hear_out(&mut stream).map(|heard| Some(heard)),
            Part::Shut => Ok(None),
        }
    }
}

/// Reads what comes, up to its end, and gives how many bytes that were.
fn hear_out<R: Read>(stream: &mut R) -> io::Result<u64> {
    let mut chunk = [0u8; CHUNK];
    let mut heard = 0u64;
    'chunks: for _ in 0..u64::MAX {
        let count = stream.read(&mut chunk)?;
        if count == 0 {
            break;
        }
        heard = heard.saturating_add(count as u64);
    }
    Ok(heard)
}

/// Writes what comes back to where it comes from, up to its end.
fn hand_back<S: Read + Write>(stream: &mut S) -> io::Result<()> {
    let mut chunk = [0u8; CHUNK];
    'chunks: for _ in 0..u64::MAX {
        let count = stream.read(&mut chunk)?;
        if count == 0 {
            break;
        }
        stream.write_all(&chunk[..count])?;
    }
    Ok(())
}

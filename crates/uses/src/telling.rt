//! Acts and ends in plain words, a line each.

use crate::trouble::Trouble;
use acts::decimal::push_decimal;
use acts::{Act, Id, NoMemory, Row, Timer};
use engine::End;
use std::alloc::{Allocator, Global};
use std::io::{self, Write};

/// Writes who does what, and to which id.
pub fn tell_act<W: Write>(
    alloc: Global,
    out: &mut W,
    who: &[u8],
    act: &Act<Global>,
) -> Result<(), Trouble> {
    match act {
        Act::Spawn(id, words) => tell_of(alloc, out, who, b"starts", *id, first_of(words)),
        Act::Send(id, text) => tell_of(alloc, out, who, b"sends to", *id, text.as_slice()),
        Act::Close(id) => tell_close(alloc, out, who, *id),
        Act::Wait { rows, timer } => tell_wait(alloc, out, who, rows.as_slice(), *timer),
        Act::Out(text) => Ok(tell(out, who, b"shows", text.as_slice())?),
        _ => Ok(tell(out, who, b"does", b"something else")?),
    }
}

/// Writes how a dialogue ends.
pub fn tell_end<A: Allocator, W: Write>(out: &mut W, who: &[u8], end: &End<A>) -> io::Result<()> {
    tell(out, who, b"ends", name_of(end))
}

/// Writes what is done to an id.
fn tell_of<W: Write>(
    alloc: Global,
    out: &mut W,
    who: &[u8],
    does: &[u8],
    id: Id,
    what: &[u8],
) -> Result<(), Trouble> {
    let text = named(alloc, id, what)?;
    Ok(tell(out, who, does, text.as_slice())?)
}

/// Writes that an id is closed.
fn tell_close<W: Write>(alloc: Global, out: &mut W, who: &[u8], id: Id) -> Result<(), Trouble> {
    let name = id.text(alloc)?;
    Ok(tell(out, who, b"closes", name.as_slice())?)
}

/// An id, and a text after it.
fn named(alloc: Global, id: Id, what: &[u8]) -> Result<Vec<u8, Global>, NoMemory> {
    let mut text = id.text(alloc)?;
    text.push(b' ')?;
    text.extend_from_slice(what)?;
    Ok(text)
}

/// Writes a wait: how full the one buffer is, and how the timer runs.
fn tell_wait<W: Write>(
    alloc: Global,
    out: &mut W,
    who: &[u8],
    rows: &[Row],
    timer: Timer,
) -> Result<(), Trouble> {
    let [row] = rows else {
        return Ok(tell(out, who, b"waits for", b"several ids")?);
    };
    let held = held_of(alloc, *row, timer)?;
    tell_of(alloc, out, who, b"waits for", row.id, held.as_slice())
}

/// How full a buffer is, and how the timer runs.
fn held_of(alloc: Global, row: Row, timer: Timer) -> Result<Vec<u8, Global>, NoMemory> {
    let mut text = Vec::new(alloc);
    push_decimal(&mut text, u64::from(row.held))?;
    text.extend_from_slice(b" of ")?;
    push_decimal(&mut text, u64::from(row.max))?;
    text.extend_from_slice(b" bytes, ")?;
    push_timer(&mut text, timer)?;
    Ok(text)
}

/// Appends how the timer runs.
fn push_timer(text: &mut Vec<u8, Global>, timer: Timer) -> Result<(), NoMemory> {
    match timer {
        Timer::Start(seconds) => {
            push_decimal(text, seconds)?;
            Ok(text.extend_from_slice(b" seconds")?)
        }
        Timer::Running => Ok(text.extend_from_slice(b"time running")?),
        Timer::Endless => Ok(text.extend_from_slice(b"no time")?),
    }
}

/// Writes a line of three parts.
fn tell<W: Write>(out: &mut W, who: &[u8], does: &[u8], what: &[u8]) -> io::Result<()> {
    out.write_all(who)?;
    out.write_all(b" ")?;
    out.write_all(does)?;
    out.write_all(b" ")?;
    out.write_all(what)?;
    out.write_all(b"\n")
}

/// The first of some words.
fn first_of<A: Allocator>(words: &[Vec<u8, A>]) -> &[u8] {
    match words {
        [first, ..] => first.as_slice(),
        [] => b"nothing",
    }
}

/// An end in a few words.
fn name_of<A: Allocator>(end: &End<A>) -> &[u8] {
    match end {
        End::Exit(0) => b"well",
        End::Exit(_) => b"with another status",
        End::Error(text) => text.as_slice(),
        End::Limit => b"at its limit",
        End::WriterFailed => b"without its output",
        End::BadAnswer(_) | End::NoMore => b"without an answer",
    }
}

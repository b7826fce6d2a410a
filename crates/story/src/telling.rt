//! Causes in plain English.

use crate::sought::{MOST_SHOWN, Style};
use crate::spelling::push_shortened;
use crate::vain::Vain;
use crate::why::{Difference, Why};
use acts::Id;
use acts::decimal::push_decimal;
use memory::NoMemory;
use std::alloc::Allocator;

/// How many bytes are shown after the nearest place.
const NEXT_SHOWN: usize = 8;

/// Writes a cause as one line of plain English, without a newline. `place` is the place of the
/// command that the cause names ([`Why::cause`]), and is not looked at where it names none.
///
/// After an `Err` a beginning of it may have been written.
pub fn push_why<A: Allocator>(
    out: &mut Vec<u8, A>,
    why: &Why,
    vain: &Vain<'_>,
    place: &[u8],
) -> Result<(), NoMemory> {
    match why {
        Why::Stands { at, end, but } => {
            push_standing(out, vain.window, *at, *end)?;
            push_difference(out, *but, vain.sought.style)
        }
        Why::Consumed { .. } => push_parts(out, b"it had come, and was consumed by ", place),
        Why::CameLater { after, .. } => push_later(out, *after, place),
        Why::Forgotten { short } => push_forgotten(out, *short, vain.max),
        Why::OtherId { id } => push_id(out, b"it came from ", *id, b""),
        Why::Ended => {
            let end = b" was at its end, and nothing more comes from it";
            push_id(out, b"", vain.sought.id, end)
        }
        Why::Unwaited => {
            let end = b" is not open, and nothing of it is waited for";
            push_id(out, b"", vain.sought.id, end)
        }
        Why::Beginning { at, count, of } => push_beginning(out, vain.window, *at, *count, *of),
        Why::Nearest { at, end, count, of } => push_nearest(
            out,
            vain.window,
            (*at, *end),
            (*count, *of),
        ),
        Why::Branches => push_parts(out, BRANCHES, b""),
        Why::Silent if vain.window.is_empty() => push_parts(out, b"the buffer is empty", b""),
        Why::Silent => push_parts(out, b"nothing of it is in the buffer", b""),
    }
}

/// What is wrong with branches in one word.
const BRANCHES: &[u8] = b"this one word is a pattern, and no list of branches: \
    write them without the braces around them";

/// Writes two texts.
fn push_parts<A: Allocator>(
    out: &mut Vec<u8, A>,
    one: &[u8],
    other: &[u8],
) -> Result<(), NoMemory> {
    out.extend_from_slice(one)?;
    out.extend_from_slice(other)?;
    Ok(())
}

/// Writes an id between two texts.
fn push_id<A: Allocator>(
    out: &mut Vec<u8, A>,
    before: &[u8],
    id: Id,
    after: &[u8],
) -> Result<(), NoMemory> {
    out.extend_from_slice(before)?;
    out.extend_from_slice(b"exp")?;
    push_decimal(out, id.0)?;
    out.extend_from_slice(after)?;
    Ok(())
}

/// Writes a part of the window, and where it stands.
fn push_standing<A: Allocator>(
    out: &mut Vec<u8, A>,
    window: &[u8],
    at: usize,
    end: usize,
) -> Result<(), NoMemory> {
    push_shortened(out, window.get(at..end).unwrap_or(&[]), MOST_SHOWN)?;
    out.extend_from_slice(b" stands at ")?;
    push_decimal(out, at as u64)
}

/// Writes how what stands there differs from the pattern.
fn push_difference<A: Allocator>(
    out: &mut Vec<u8, A>,
    difference: Difference,
    style: Style,
) -> Result<(), NoMemory> {
    let text: &[u8] = match (difference, style) {
        (Difference::Taken, _) => b", but an earlier branch took the text first",
        (Difference::Literal, _) => {
            b" as the pattern is written, but in a glob * ? [ \\ ^ $ are signs \
            (-ex seeks a text as it stands)"
        }
        (Difference::Escape, Style::Exact) => {
            b": in the pattern a backslash is a backslash (in double quotes \\n is a newline)"
        }
        (Difference::Escape, Style::Glob) => {
            b": in the pattern a backslash and a letter are that letter, as \\n the letter n \
            (in double quotes \\n is a newline)"
        }
        (Difference::Case, _) => {
            b": only the case of letters differs (-nocase wants the pattern in small letters)"
        }
        (Difference::LastBlank, _) => b": only the blank at the pattern's end is missing",
        (Difference::Return, _) => b": only carriage returns differ",
        (Difference::Blanks, _) => b": only blanks differ",
        (Difference::TiedToBegin, _) => {
            b", but ^ ties the pattern to the beginning of the buffer"
        }
        (Difference::TiedToEnd, _) => b", but $ ties the pattern to the end of the buffer",
        (Difference::Set, _) => b", but a set in the pattern does not hold the byte in its place",
        (Difference::Several, _) => {
            b": blanks, carriage returns, case or backslashes differ, more than one of them"
        }
    };
    push_parts(out, text, b"")
}

/// Writes that it came later.
fn push_later<A: Allocator>(
    out: &mut Vec<u8, A>,
    after: u64,
    place: &[u8],
) -> Result<(), NoMemory> {
    out.extend_from_slice(b"it came later, ")?;
    push_decimal(out, after)?;
    push_parts(out, b" bytes on, during ", place)
}

/// Writes that it was forgotten.
fn push_forgotten<A: Allocator>(
    out: &mut Vec<u8, A>,
    short: u64,
    max: u32,
) -> Result<(), NoMemory> {
    out.extend_from_slice(b"it had come, and was forgotten: match_max ")?;
    push_decimal(out, u64::from(max))?;
    out.extend_from_slice(b" is too small by ")?;
    push_decimal(out, short)?;
    push_parts(out, b" bytes at least", b"")
}

/// Writes how much there is of the pattern.
fn push_share<A: Allocator>(out: &mut Vec<u8, A>, count: usize, of: usize) -> Result<(), NoMemory> {
    out.extend_from_slice(b"its first ")?;
    push_decimal(out, count as u64)?;
    out.extend_from_slice(b" of ")?;
    push_decimal(out, of as u64)?;
    push_parts(out, b" bytes", b"")
}

/// Writes which beginning of the pattern ends the window.
fn push_beginning<A: Allocator>(
    out: &mut Vec<u8, A>,
    window: &[u8],
    at: usize,
    count: usize,
    of: usize,
) -> Result<(), NoMemory> {
    out.extend_from_slice(b"only ")?;
    push_share(out, count, of)?;
    out.extend_from_slice(b" came: ")?;
    push_standing(out, window, at, window.len())?;
    push_parts(out, b", at the end of the buffer", b"")
}

/// Writes the nearest place, and what stands there next.
fn push_nearest<A: Allocator>(
    out: &mut Vec<u8, A>,
    window: &[u8],
    place: (usize, usize),
    share: (usize, usize),
) -> Result<(), NoMemory> {
    let (at, end) = place;
    let (count, of) = share;
    out.extend_from_slice(b"only ")?;
    push_share(out, count, of)?;
    out.extend_from_slice(b" came: ")?;
    push_standing(out, window, at, end)?;
    let next = window.get(end..).unwrap_or(&[]);
    if next.is_empty() {
        return push_parts(out, b", at the end of the buffer", b"");
    }
    out.extend_from_slice(b", and then ")?;
    let shown = next.get(..NEXT_SHOWN).unwrap_or(next);
    push_shortened(out, shown, NEXT_SHOWN)
}

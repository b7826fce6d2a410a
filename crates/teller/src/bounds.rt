//! Where a command of a text ends, and where the faulty one begins of a text that is no script.

use acts::NoMemory;
use std::alloc::Allocator;
use tclparse::Script;

/// How many halves at most are looked at: as many as a list can be cut into.
const MOST_HALVES: u32 = 64;

/// What stands between commands.
#[derive(Clone, Copy)]
enum Gap {
    /// White space and separators.
    Plain,
    /// A comment.
    Comment,
    /// The byte after a backslash in a comment.
    Hidden,
}

/// Where the faulty command of a text begins: it is the one after the last whole command, which
/// begins at `last`, or the first command where no whole one stands before it.
///
/// # Errors
/// `NoMemory`.
pub(crate) fn faulty_start<A: Allocator + Copy>(
    alloc: A,
    text: &[u8],
    last: Option<usize>,
) -> Result<usize, NoMemory> {
    let end = match last {
        Some(last) => command_end(alloc, text, last)?,
        None => 0,
    };
    Ok(next_command(text, end))
}

/// Where the whole command ends that begins at this place: at the first separator up to which the
/// text has a whole command. That holds from there on, so half of them are left out at a time.
///
/// # Errors
/// `NoMemory`.
pub(crate) fn command_end<A: Allocator + Copy>(
    alloc: A,
    text: &[u8],
    start: usize,
) -> Result<usize, NoMemory> {
    let ends = separators(alloc, text, start)?;
    let mut low = 0usize;
    let mut high = ends.len();
    for _ in 0..MOST_HALVES {
        let middle = low.saturating_add(high.saturating_sub(low) / 2);
        let Some(end) = ends.get(middle) else {
            break;
        };
        if has_command(alloc, text.get(start..*end).unwrap_or(&[]))? {
            high = middle;
        } else {
            low = middle.saturating_add(1);
        }
        if high <= low {
            break;
        }
    }
    Ok(ends.get(low).copied().unwrap_or(text.len()))
}

/// Where newlines and semicolons stand after a place, without those after a backslash.
fn separators<A: Allocator + Copy>(
    alloc: A,
    text: &[u8],
    start: usize,
) -> Result<Vec<usize, A>, NoMemory> {
    let mut ends = Vec::new(alloc);
    let mut is_hidden = false;
    for (place, byte) in text.iter().enumerate() {
        if matches!(byte, b'\n' | b';') && !is_hidden && start < place {
            ends.push(place)?;
        }
        is_hidden = *byte == b'\\' && !is_hidden;
    }
    Ok(ends)
}

/// Whether the first command of a text is whole.
fn has_command<A: Allocator + Copy>(alloc: A, text: &[u8]) -> Result<bool, NoMemory> {
    Ok(!Script::read(alloc, text)?.commands.is_empty())
}

/// Where the next command begins from a place on that stands between commands.
fn next_command(text: &[u8], from: usize) -> usize {
    let mut gap = Gap::Plain;
    for (place, byte) in text.iter().enumerate() {
        gap = match (gap, byte) {
            (_, _) if place < from => Gap::Plain,
            (Gap::Plain, b' ' | b'\t' | b'\r' | 0x0b | 0x0c | b'\n' | b';') => Gap::Plain,
            (Gap::Plain, b'#') => Gap::Comment,
            (Gap::Plain, b'\\') if is_newline(text, place.saturating_add(1)) => Gap::Plain,
            (Gap::Plain, _) => return place,
            (Gap::Comment, b'\n') => Gap::Plain,
            (Gap::Comment, b'\\') => Gap::Hidden,
            (Gap::Comment | Gap::Hidden, _) => Gap::Comment,
        };
    }
    text.len()
}

/// Whether a newline stands at a place.
fn is_newline(text: &[u8], place: usize) -> bool {
    matches!(text.get(place), Some(b'\n'))
}

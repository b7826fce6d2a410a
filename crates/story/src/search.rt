//! Searches for the items of a pattern.

use crate::lens::Lens;
use crate::shape::{Item, Ties, glob_text};
use memory::NoMemory;
use patterns::{Found, Pattern, PatternError, Scratch};
use std::alloc::Allocator;

/// Where the items stand in a window, as they are looked at: the first place, and the place in the
/// window itself.
pub(crate) fn seek<A: Allocator + Copy>(
    alloc: A,
    items: &[Item<'_>],
    ties: Ties,
    lens: Lens,
    window: &[u8],
) -> Result<Option<Found>, NoMemory> {
    let text = glob_text(alloc, items, ties, lens)?;
    let view = lens.view(alloc, window)?;
    let Some(pattern) = read(alloc, &text)? else {
        return Ok(None);
    };
    match find(alloc, &pattern, view.as_slice())? {
        Some(seen) => Ok(Some(lens.part_of(window, seen))),
        None => Ok(None),
    }
}

/// The last place at which the items stand in a text, of places that do not overlap.
pub(crate) fn seek_last<A: Allocator + Copy>(
    alloc: A,
    items: &[Item<'_>],
    lens: Lens,
    text: &[u8],
) -> Result<Option<Found>, NoMemory> {
    let glob = glob_text(alloc, items, Ties::NONE, lens)?;
    let view = lens.view(alloc, text)?;
    let Some(pattern) = read(alloc, &glob)? else {
        return Ok(None);
    };
    let seen = view.as_slice();
    let mut last = None;
    let mut from = 0usize;
    for _ in seen {
        let rest = seen.get(from..).unwrap_or(&[]);
        let Some(next) = find(alloc, &pattern, rest)? else {
            break;
        };
        let start = from.saturating_add(next.start);
        let end = from.saturating_add(next.end);
        last = Some(Found { start, end });
        from = end.max(start.saturating_add(1));
    }
    Ok(last)
}

/// The pattern of a glob's text, or `None` where that is too long for one.
fn read<A: Allocator + Copy>(alloc: A, text: &[u8]) -> Result<Option<Pattern<A>>, NoMemory> {
    match Pattern::glob(alloc, text) {
        Ok(pattern) => Ok(Some(pattern)),
        Err(PatternError::TooLong) => Ok(None),
        Err(PatternError::NoMemory(refused)) => Err(refused),
    }
}

/// Where a pattern is found; nowhere in a text of 4 GiB or more.
fn find<A: Allocator>(
    alloc: A,
    pattern: &Pattern<A>,
    text: &[u8],
) -> Result<Option<Found>, NoMemory> {
    let Ok(room) = u32::try_from(text.len()) else {
        return Ok(None);
    };
    let mut scratch = Scratch::new(alloc, room)?;
    Ok(pattern.find(text, &mut scratch).found)
}

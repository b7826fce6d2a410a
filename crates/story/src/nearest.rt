//! The beginning of a pattern that the window has.

use crate::search::seek;
use crate::shape::{Item, Ties, without_last_runs};
use crate::why::Why;
use crate::window::Look;
use memory::NoMemory;
use patterns::Found;
use std::alloc::Allocator;

/// Up to how many bytes a beginning of the pattern is sought at the end of the window.
const MOST_TRIED: usize = 255;

/// The least beginning at the end of a longer window that is no chance.
const LEAST_TELLING: usize = 2;

/// The window ends with a beginning of the pattern.
pub(crate) fn beginning<A: Allocator + Copy>(look: &Look<'_, A>) -> Result<Option<Why>, NoMemory> {
    let first = first_bytes(look)?;
    let window = look.vain.window;
    let view = look.lens.view(look.alloc, window)?;
    let Some(count) = common(view.as_slice(), &first) else {
        return Ok(None);
    };
    if count < LEAST_TELLING && count < window.len() {
        return Ok(None);
    }
    Ok(Some(Why::Beginning {
        at: window.len().saturating_sub(count),
        count,
        of: look.shape.items.len(),
    }))
}

/// The bytes with which each match begins, as far as they are tried.
fn first_bytes<A: Allocator + Copy>(look: &Look<'_, A>) -> Result<Vec<u8, A>, NoMemory> {
    let mut bytes = Vec::new(look.alloc);
    for item in look.shape.items.iter().take(MOST_TRIED) {
        let Item::Byte(byte) = item else {
            break;
        };
        bytes.push(*byte)?;
    }
    Ok(bytes)
}

/// How many bytes at the most end one text and begin the other; `None` for no byte.
fn common(ending: &[u8], beginning: &[u8]) -> Option<usize> {
    let most = ending.len().min(beginning.len());
    for less in 0..most {
        let count = most - less;
        if beginning.starts_with(&ending[ending.len() - count..]) {
            return Some(count);
        }
    }
    None
}

/// The longest beginning of the pattern that stands in the window, and where it stands.
pub(crate) fn nearest<A: Allocator + Copy>(look: &Look<'_, A>) -> Result<Why, NoMemory> {
    let items = &look.shape.items;
    let mut best = Why::Silent;
    let of = items.len();
    let mut stands = 0usize;
    let mut fails = of;
    // What is left between the two halves with each turn.
    for _ in 0..usize::BITS {
        let half = fails.saturating_sub(stands) / 2;
        if half == 0 {
            break;
        }
        let count = stands.saturating_add(half);
        match stands_at(look, items.get(..count).unwrap_or(&[]))? {
            Some(Found { start: at, end }) => {
                best = Why::Nearest { at, end, count, of };
                stands = count;
            }
            None => fails = count,
        }
    }
    Ok(best)
}

/// Where these items stand in the window; those before a `*` at the end of them.
fn stands_at<A: Allocator + Copy>(
    look: &Look<'_, A>,
    items: &[Item<'_>],
) -> Result<Option<Found>, NoMemory> {
    let items = without_last_runs(items);
    seek(look.alloc, items, Ties::NONE, look.lens, look.vain.window)
}

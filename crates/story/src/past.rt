//! The causes that the history shows.

use crate::heard::Heard;
use crate::lens::Lens;
use crate::search::{seek, seek_last};
use crate::shape::{Backslash, Shape, Ties};
use crate::sought::Sought;
use crate::tape::Fate;
use crate::why::Why;
use crate::window::Look;
use memory::NoMemory;
use std::alloc::Allocator;

/// A part of what is kept of an id.
#[derive(Clone, Copy)]
pub(crate) enum Part {
    /// What its buffer holds.
    Window,
    /// All of it.
    Whole,
}

/// The first cause that the history shows: it had come and is gone, or it stands in the buffer of
/// another id.
pub(crate) fn in_history<A: Allocator + Copy>(
    look: &Look<'_, A>,
    heard: &Heard<A>,
) -> Result<Option<Why>, NoMemory> {
    if let Some(why) = gone(look, heard)? {
        return Ok(Some(why));
    }
    elsewhere(look, heard, Part::Window)
}

/// It had come from the id, and was consumed or forgotten.
fn gone<A: Allocator + Copy>(
    look: &Look<'_, A>,
    heard: &Heard<A>,
) -> Result<Option<Why>, NoMemory> {
    let Some(tape) = heard.tape(look.vain.sought.id) else {
        return Ok(None);
    };
    let found = seek_last(look.alloc, &look.shape.items, look.lens, tape.bytes())?;
    let Some(part) = found else {
        return Ok(None);
    };
    match tape.fate(part) {
        Some((Fate::Consumed(by), _)) => Ok(Some(Why::Consumed { by })),
        Some((Fate::Forgotten, short)) => Ok(Some(Why::Forgotten { short })),
        None => Ok(None),
    }
}

/// It came from another id, and stands in this part of what is kept of that.
pub(crate) fn elsewhere<A: Allocator + Copy>(
    look: &Look<'_, A>,
    heard: &Heard<A>,
    part: Part,
) -> Result<Option<Why>, NoMemory> {
    let items = &look.shape.items;
    for tape in heard.tapes() {
        let id = tape.id();
        let bytes = match part {
            Part::Window => tape.window(),
            Part::Whole => tape.bytes(),
        };
        if id != look.vain.sought.id
            && seek(look.alloc, items, Ties::NONE, look.lens, bytes)?.is_some()
        {
            return Ok(Some(Why::OtherId { id }));
        }
    }
    Ok(None)
}

/// Whether what a branch sought in vain came later: asked at the end of the run, of a wait that
/// was over when `came` bytes had come from the id, of which its buffer held the last `held`.
///
/// Gives [`Why::CameLater`], or `None` where it did not come or is not kept.
pub fn came_later<A: Allocator + Copy>(
    alloc: A,
    heard: &Heard<A>,
    sought: &Sought<'_>,
    came: u64,
    held: usize,
) -> Result<Option<Why>, NoMemory> {
    let Some(tape) = heard.tape(sought.id) else {
        return Ok(None);
    };
    let shape = Shape::read(alloc, sought.style, Backslash::Plain, sought.text)?;
    let lens = Lens::plain(sought.folds);
    let from = tape.index(came.saturating_sub(held as u64));
    let later = &tape.bytes()[from..];
    let Some(found) = seek(alloc, &shape.items, Ties::NONE, lens, later)? else {
        return Ok(None);
    };
    let end = tape.place(from.saturating_add(found.end));
    let after = end.saturating_sub(came);
    match tape.arrival(end.saturating_sub(1)) {
        Some(during) if 0 < after => Ok(Some(Why::CameLater { during, after })),
        _ => Ok(None),
    }
}

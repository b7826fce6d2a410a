//! The lines of a story.

ghost use Rattle.std.specs.Prelude.{◌≡◌, ◌≤◌, ◌++◌, OnOk};
ghost use Rattle.story.specs.Line.{event_and, gap, line};

use memory::NoMemory;
use std::alloc::Allocator;

/// How wide the column of places is.
const PLACE_WIDTH: usize = 14;

/// How wide the column of what happened is.
const EVENT_WIDTH: usize = 32;

/// How many blanks stand between two columns at least.
const LEAST_GAP: usize = 2;

/// Writes a line of a story, with its newline: a place, what happened there, and a detail, each in
/// its column. What is wider than its column pushes the rest on; what is empty at the end of the
/// line leaves no blanks.
///
/// After an `Err` a beginning of it may have been written.
pub fn push_line<A: Allocator>(
    out: &mut Vec<u8, A>,
    place: &[u8],
    event: &[u8],
    detail: &[u8],
) -> Result<(), NoMemory>
    ensures { OnOk result (out.new.items ≡ out.old.items ++ line place.now event.now detail.now) }
{
    out.extend_from_slice(place)?;
    if !event.is_empty() || !detail.is_empty() {
        push_gap(out, place, PLACE_WIDTH)?;
        push_event(out, event, detail)?;
    }
    out.push(b'\n')?;
    Ok(())
}

/// Writes what happened, and its detail in the next column where there is one.
fn push_event<A: Allocator>(
    out: &mut Vec<u8, A>,
    event: &[u8],
    detail: &[u8],
) -> Result<(), NoMemory>
    ensures { OnOk result (out.new.items ≡ out.old.items ++ event_and event.now detail.now) }
{
    out.extend_from_slice(event)?;
    if !detail.is_empty() {
        push_gap(out, event, EVENT_WIDTH)?;
        out.extend_from_slice(detail)?;
    }
    Ok(())
}

/// Writes the blanks after a text in a column of this width.
fn push_gap<A: Allocator>(out: &mut Vec<u8, A>, text: &[u8], width: usize) -> Result<(), NoMemory>
    requires { width ≤ 32 }
    ensures { OnOk result (out.new.items ≡ out.old.items ++ gap width text.now) }
{
    let blanks = width.saturating_sub(text.len()).max(LEAST_GAP);
    out.resize(out.len() + blanks, b' ')?;
    Ok(())
}

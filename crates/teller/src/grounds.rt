//! Where the texts stand in the script of a run that its commands run.

use crate::spots::Spot;
use memchr::memmem;

/// Where a text stands in a command, in braces or in quotes, or else in the whole script, as the
/// body of a procedure does.
pub(crate) fn found_in(script: &[u8], text: &[u8], around: Option<Spot>) -> Option<Spot> {
    braced_in(script, around?, text).or(braced_in(script, Spot::whole(script), text))
}

/// Where a text stands in a part of the script, in braces or in quotes: right within them, or else
/// with white space around it, as the script of an `eval` does (concat(n)).
fn braced_in(script: &[u8], part: Spot, text: &[u8]) -> Option<Spot> {
    if text.is_empty() {
        return None;
    }
    let room = part.text(script);
    let close = memmem::find_iter(room, text).find(|at| is_braced(room, *at, text.len()));
    let found = match close {
        Some(found) => found,
        None => memmem::find_iter(room, text).find(|at| is_spaced(room, *at, text.len()))?,
    };
    let start = part.start.checked_add(found)?;
    let end = start.checked_add(text.len())?;
    let in_word = false;
    Some(Spot {
        start,
        end,
        in_word,
    })
}

/// Whether the bytes right before and after a part of a text are braces, or quotes.
fn is_braced(room: &[u8], at: usize, length: usize) -> bool {
    let (before, after) = around(room, at, length);
    are_braces(before.last(), after.first())
}

/// Whether they are so but for white space.
fn is_spaced(room: &[u8], at: usize, length: usize) -> bool {
    let (before, after) = around(room, at, length);
    are_braces(
        before.trim_ascii_end().last(),
        after.trim_ascii_start().first(),
    )
}

/// What stands in a text before and after a part of it.
fn around(room: &[u8], at: usize, length: usize) -> (&[u8], &[u8]) {
    let (before, rest) = room.split_at(at.min(room.len()));
    let (_, after) = rest.split_at(length.min(rest.len()));
    (before, after)
}

/// Whether these bytes are a pair of braces, or of quotes.
fn are_braces(before: Option<&u8>, after: Option<&u8>) -> bool {
    match (before, after) {
        (Some(b'{'), Some(b'}')) | (Some(b'"'), Some(b'"')) => true,
        (Some(_), Some(_)) | (None, _) | (_, None) => false,
    }
}

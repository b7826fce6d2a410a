//! What a branch seeks.

use crate::spelling::push_shortened;
use acts::Id;
use memory::NoMemory;
use std::alloc::Allocator;

/// How many bytes of a text a line shows.
pub(crate) const MOST_SHOWN: usize = 60;

/// How a text is sought (expect(1), expect, `-gl` and `-ex`).
#[derive(Clone, Copy, Debug, PartialEq, Eq)]
pub enum Style {
    /// As a glob.
    Glob,
    /// As it stands.
    Exact,
}

/// What a branch of `expect` seeks (expect(1), expect).
#[derive(Clone, Copy, Debug)]
pub struct Sought<'a> {
    /// The id that it is sought for.
    pub id: Id,
    /// How it is sought.
    pub style: Style,
    /// The pattern, as the command got it.
    pub text: &'a [u8],
    /// Capital letters of the window count as small ones (`-nocase`).
    pub folds: bool,
    /// The pattern is the only word of the command, apart from an `-i` with its list of ids.
    pub is_lone: bool,
}

/// Writes how and what a branch seeks, as in `glob -nocase "yes"`.
///
/// After an `Err` a beginning of it may have been written.
pub fn push_sought<A: Allocator>(
    out: &mut Vec<u8, A>,
    sought: &Sought<'_>,
) -> Result<(), NoMemory> {
    let style: &[u8] = match sought.style {
        Style::Glob => b"glob ",
        Style::Exact => b"exact ",
    };
    out.extend_from_slice(style)?;
    if sought.folds {
        out.extend_from_slice(b"-nocase ")?;
    }
    push_shortened(out, sought.text, MOST_SHOWN)
}

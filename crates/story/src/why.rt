//! The causes for which a pattern is not found, and the first that holds.

use crate::cause::Cause;
use crate::heard::Heard;
use crate::nearest::{beginning, nearest};
use crate::past::{Part, elsewhere, in_history};
use crate::vain::{Ending, Vain};
use crate::window::{Look, in_window};
use acts::Id;
use memory::NoMemory;
use std::alloc::Allocator;

/// What keeps a text of the window from being what a pattern is found as.
#[derive(Clone, Copy, Debug, PartialEq, Eq)]
pub enum Difference {
    /// None, but an earlier branch took the text first.
    Taken,
    /// It is the text of the pattern as it is written, but the pattern is a glob.
    Literal,
    /// The pattern has backslashes that would have to be read as in double quotes.
    Escape,
    /// The case of letters.
    Case,
    /// It lacks the blanks at the pattern's end.
    LastBlank,
    /// Carriage returns.
    Return,
    /// Blanks, tabs and carriage returns.
    Blanks,
    /// `^` ties the pattern to the beginning of the window.
    TiedToBegin,
    /// `$` ties the pattern to the end of the window.
    TiedToEnd,
    /// A set does not hold the byte in its place.
    Set,
    /// Case, blanks, carriage returns and backslashes, more than one of them.
    Several,
}

/// Why a branch did not find its pattern. Places are places in the window.
#[derive(Clone, Copy, Debug, PartialEq, Eq)]
pub enum Why {
    /// The id is not waited for.
    Unwaited,
    /// The only word of the command is one pattern, and no list of branches.
    Branches,
    /// What stands from `at` up to `end` would be it, but for one thing.
    Stands {
        at: usize,
        end: usize,
        but: Difference,
    },
    /// The window ends with a beginning of it, of `count` of `of` items.
    Beginning {
        at: usize,
        count: usize,
        of: usize,
    },
    /// It had come, and this command consumed it.
    Consumed {
        by: Cause,
    },
    /// It had come and was forgotten: match_max is too small by that many bytes at least.
    Forgotten {
        short: u64,
    },
    /// It came from another id: it stands in the buffer of that, or, where nothing else is known,
    /// in what is kept of it.
    OtherId {
        id: Id,
    },
    /// It came later, during this command, up to the byte of that number since the wait was over.
    CameLater {
        during: Cause,
        after: u64,
    },
    /// The id was at its end.
    Ended,
    /// The longest beginning of it that stands in the window, of `count` of `of` items.
    Nearest {
        at: usize,
        end: usize,
        count: usize,
        of: usize,
    },
    /// No beginning of it stands in the window.
    Silent,
}

impl Why {
    /// The command that the cause names.
    pub fn cause(&self) -> Option<Cause> {
        match self {
            Why::Consumed { by } => Some(*by),
            Why::CameLater { during, .. } => Some(*during),
            Why::Unwaited
            | Why::Branches
            | Why::Stands { .. }
            | Why::Beginning { .. }
            | Why::Forgotten { .. }
            | Why::OtherId { .. }
            | Why::Ended
            | Why::Nearest { .. }
            | Why::Silent => None,
        }
    }

    /// Whether half of the pattern at least stands at the end of the window.
    fn is_half(&self) -> bool {
        match self {
            Why::Beginning { count, of, .. } => *of <= count.saturating_mul(2),
            _ => false,
        }
    }
}

/// Why a branch did not find its pattern: the first cause that holds.
///
/// It looks at the window and at the history a fixed number of times, and for the nearest place
/// once for each doubling of the pattern's length.
pub fn why_in_vain<A: Allocator + Copy>(
    alloc: A,
    heard: &Heard<A>,
    vain: &Vain<'_>,
) -> Result<Why, NoMemory> {
    if vain.ending == Ending::Unwaited {
        return Ok(Why::Unwaited);
    }
    let look = Look::new(alloc, vain)?;
    if let Some(why) = in_window(&look)? {
        return Ok(why);
    }
    let begun = beginning(&look)?;
    if let Some(why) = begun
        && why.is_half()
    {
        return Ok(why);
    }
    if let Some(why) = in_history(&look, heard)? {
        return Ok(why);
    }
    if let Some(why) = begun {
        return Ok(why);
    }
    if vain.ending == Ending::Ended {
        return Ok(Why::Ended);
    }
    let near = nearest(&look)?;
    if near != Why::Silent {
        return Ok(near);
    }
    Ok(elsewhere(&look, heard, Part::Whole)?.unwrap_or(near))
}

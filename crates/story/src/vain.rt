//! A branch that sought in vain.

use crate::sought::Sought;

/// How a wait was over, for the id of a branch.
#[derive(Clone, Copy, Debug, PartialEq, Eq)]
pub enum Ending {
    /// Time was over or the buffer was full, and the id was open.
    Open,
    /// The id was at its end.
    Ended,
    /// The id is not open, so nothing of it is waited for.
    Unwaited,
    /// Another branch was chosen.
    Other,
}

/// A branch that sought in vain.
#[derive(Clone, Copy, Debug)]
pub struct Vain<'a> {
    /// What it sought.
    pub sought: Sought<'a>,
    /// What the buffer of its id held when the wait was over; where another branch was chosen,
    /// before anything was consumed.
    pub window: &'a [u8],
    /// How many bytes the buffer may hold (expect(1), match_max).
    pub max: u32,
    /// How the wait was over.
    pub ending: Ending,
}

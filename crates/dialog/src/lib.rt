//! Dialogues: the pairs that stand, among which pairs an `expect` chooses, and what is kept of its
//! words. The open ids, the choice and the reading of words stand below, and are named from here.
#![tactic(auto)]

mod effective;
mod kept_branches;
mod standing;

pub use choices::{
    Awaited, Branch, Choice, FIRST_SIZE, Flags, Kind, LogState, MOST_OPEN, OpenError, Pair, Table,
    Taken, Trigger,
};
pub use effective::Effective;
pub use kept_branches::KeptBranches;
pub use readings::{BranchError, Branches, Keyword, Mark, Sign};
pub use searches::Style;
pub use standing::{Side, Standing};

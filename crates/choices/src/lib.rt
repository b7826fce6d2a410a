//! The open ids with their match buffers, and the choice among pairs of an id and a branch.
#![tactic(auto)]

mod branch;
mod choice;
mod entry;
mod error;
mod kind;
pub mod laws;
mod log_state;
mod names;
mod rows;
mod table;

pub use branch::{Awaited, Branch, Flags, Pair};
pub use choice::{Choice, Taken, Trigger};
pub use error::OpenError;
pub use kind::Kind;
pub use log_state::LogState;
pub use table::{FIRST_SIZE, MOST_OPEN, Table};

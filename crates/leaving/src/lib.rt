//! The commands that end a part of a script, or the whole run.
#![tactic(auto)]

mod exits;
mod exp_continue;

pub use exits::{Exit, leave};

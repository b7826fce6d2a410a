//! The commands that read and write variables.
#![tactic(auto)]

pub mod append;
pub mod array;
pub mod global;
pub mod incr;
pub mod info;
pub mod lappend;
pub mod set;
pub mod unset;
mod values;

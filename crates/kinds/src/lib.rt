//! The kinds of commands that run no script: what each gets, and how it answers.
#![tactic(auto)]

pub mod ids;
mod settled;
pub mod usage;
pub mod variables;
pub mod words;

pub use settled::{failed, settle};

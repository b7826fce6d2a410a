//! The words of a call of the program: its options, and after them the script with its arguments.
#![tactic(auto)]

pub mod arguments;

pub use arguments::Arguments;

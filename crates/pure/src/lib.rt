//! The commands that are functions of their words: on lists, and on strings.
#![tactic(auto)]

mod command;
mod concat;
mod join;
mod lindex;
mod llength;
mod lrange;
mod place;
mod split;
mod string;
mod trim;
mod words;

pub use command::Pure;
pub use concat::concatenated;
pub use string::Subcommand;

//! The grammar of formulas: a text is read into a tree, or it has one fault.
#![tactic(auto)]

mod error;
mod fault;
mod following;
mod formula;
mod group;
pub mod laws;
mod leaf;
mod opening;
mod piece;
mod read;
mod tree;
mod white;

pub use error::ReadError;
pub use fault::Fault;
pub use tree::{Choice, Formula, Link, Row};

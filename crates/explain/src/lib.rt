//! The story of a run: what a script did, line by line, and why a wait did not find what it sought.
#![tactic(auto)]

mod asked;
pub mod program;
mod refusals;
mod watched;

pub use teller::Detail;
pub use watched::Story;

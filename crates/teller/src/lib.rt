//! Tells the story of a run line by line: what a script did, and why a wait did not find what it
//! sought.
#![tactic(auto)]

mod bounds;
mod branches;
mod choice;
mod ended;
mod grounds;
mod lines;
mod nested;
mod outcome;
mod refusal;
mod said;
mod shown;
mod spots;
pub mod telling;
mod told;
mod vain;
mod wait;
mod watching;

pub use code::Instruction;
pub use kept::Kept;
pub use refusal::Refusal;
pub use state::Outcome;
pub use telling::{Detail, Teller};

//! The rules by which rows are run, over any product that runs scripts: what is expected of a row
//! as it stands, with each answer turned into another, with memory refused, and as a call of the
//! program.
#![tactic(auto)]

mod closings;
mod course;
mod cuts;
mod error;
mod played;
mod prints;
pub mod product;
mod refused;
mod report;
mod rows;
mod starved;
mod turn;
mod turned;
mod whole;
mod world;

pub use course::{Breach, Ended};
pub use played::{Call, run_call};
pub use prints::Prints;
pub use product::{Product, Way};
pub use report::Report;
pub use rows::run_rows;

//! The commands that wait for what processes and servers say.
#![tactic(auto)]

mod clock;
pub mod expect;
pub mod form;
pub mod laws;
mod report;
pub mod resuming;
pub mod turn;
pub mod turning;
pub mod waiting;

pub use form::Form;
pub use turn::{Begun, Opening, Talk, Turn, Turned, Waits};

//! The commands of all families by their names.
#![tactic(auto)]

mod acting;
mod builtin;
pub mod laws;
mod left_out;
mod locals;
mod settings;
mod table;
mod waits;

pub use acting::Acting;
pub use table::{Began, answered, ask, begin};
pub use waits::Waits;

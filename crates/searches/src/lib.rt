//! What is sought in a match buffer, so that a search goes on where the last one ended.
#![tactic(auto)]

mod lead;
mod run;
mod searched;
mod style;
mod vain;

pub use lead::Lead;
pub use searched::{Round, Searched};
pub use style::Style;

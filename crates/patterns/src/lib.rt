//! Patterns of texts: read from a text, tested against a whole text, or sought in a window.
#![tactic(auto)]

pub mod error;
mod items;
pub mod pattern;
mod read;
pub mod run;
pub mod scratch;
pub mod search;
mod set;
pub mod text;
pub mod token;
mod walk;
pub mod window;

pub use error::PatternError;
pub use pattern::Pattern;
pub use scratch::Scratch;
pub use search::{Found, Search};
pub use text::find_text;

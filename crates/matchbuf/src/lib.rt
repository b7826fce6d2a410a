//! Match buffers: the last bytes of a dialogue that are neither consumed nor forgotten, each buffer
//! in a ring of its size.
#![tactic(auto)]

mod buffer;
mod error;
mod laws;

pub use buffer::{MAX_SIZE, MatchBuf};
pub use error::MatchBufError;
pub use laws::window_laws;

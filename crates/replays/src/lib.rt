//! The world of a recorded run, which answers from its record.
#![tactic(auto)]

pub mod answerer;
mod due;
pub mod halt;
pub mod laws;
mod left;
pub mod recording;
pub mod reel;
pub mod replay;

pub use answerer::Answerer;
pub use halt::Halt;
pub use laws::reels_are_replays;
pub use recording::Recording;
pub use reel::Reel;
pub use replay::{LentReplay, Replay};

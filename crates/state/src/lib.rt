//! What every command stands on: the state of a run, how its parts end, how far a command has come.
#![tactic(auto)]

pub mod arguments;
pub mod faults;
pub mod ids;
pub mod leaf;
pub mod outcome;
pub mod size;
pub mod state;
pub mod turn;
pub mod variables;

pub use ids::{Ids, Unreaped};
pub use leaf::Leaf;
pub use outcome::{Code, Leave, Outcome, Stop};
pub use size::Size;
pub use state::State;

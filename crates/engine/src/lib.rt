//! Runs scripts: sessions, which stop at each act of the world, and whole runs.
#![tactic(auto)]

mod running;
mod session;

pub use machine::{End, Running, Unwatched, Watch};
pub use running::{run, run_watched};
pub use runs::laws::answers_decide;
pub use session::{Session, Step};
pub use state::State;

/// How far what began has come, as one who watches a run is told it.
pub type Lead<A> = state::Leaf<A, machine::Waits<A>>;

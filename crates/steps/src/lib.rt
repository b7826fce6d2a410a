//! Flat code is run, one instruction after the other, as the definition says.
#![tactic(auto)]

mod advancing;
mod at_once;
mod catching;
mod direct;
mod foreach;
mod functions;
mod handler;
mod handling;
mod joining;
pub mod laws;
mod looping;
mod operating;
mod progress;
mod run;
mod spot;
mod stack;
mod stepping;
mod storing;
mod switch;

pub use advancing::advance;
pub use handler::{Covered, Handler};
pub use handling::resume;
pub use progress::Progress;
pub use run::Run;
pub use spot::Spot;
pub use stepping::step;

//! The machine of a session: frames, and the silent steps from an answer to the next act or the
//! end.
#![tactic(auto)]

mod advancing;
pub mod answering;
pub mod beginning;
mod closing;
mod end;
pub mod frame;
mod inner;
mod phase;
pub mod running;
mod starting;
mod turns;
mod unwinding;
mod waits;
mod watch;

pub use closing::Closing;
pub use end::End;
pub use phase::Phase;
pub use running::Running;
pub use steps::Run;
pub use waits::Waits;
pub use watch::{Unwatched, Watch};

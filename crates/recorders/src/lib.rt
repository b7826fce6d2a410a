//! The world that records another one, the file of a record, and what the record of a run leads to.
#![tactic(auto)]

pub mod laws;
pub mod lent;
pub mod record_file;
pub mod recorder;
pub mod room;

pub use lent::{LentRecorder, begin, is_lost};
pub use record_file::{RecordFile, put_count};
pub use recorder::Recorder;
pub use room::Room;

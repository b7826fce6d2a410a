//! The program, and the worlds in which it runs scripts.
#![tactic(auto)]

pub mod folder;
pub mod input;
pub mod laws;
pub mod lived;
pub mod play;
pub mod program;
pub mod record_file;
pub mod record_source;
pub mod recorded;
mod same_file;
pub mod standard;
pub mod status;

pub use engine::{End, Lead, Running, State, Watch};
pub use input::Unread;
pub use live::Live;
pub use recorders::Recorder;
pub use records::{
    Counted, Entry, RecordFault, Sink, Writer, put_all, read_entries, read_record, write_entries,
    write_record,
};
pub use replays::Replay;
pub use status::Outcome;

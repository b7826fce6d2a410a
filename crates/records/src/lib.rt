//! Records of a run's answers as texts, and the sinks that texts are put into.
#![tactic(auto)]

pub mod ahead;
pub mod counted;
pub mod entries;
pub mod entry;
mod passing;
pub mod reader;
pub mod record;
pub mod sink;
pub mod source;
pub mod written;

pub use counted::{Counted, Writer};
pub use entries::{one_list_of_entries, read_entries};
pub use entry::Entry;
pub use lines::are_rows;
pub use reader::{EntryReader, ReadFault};
pub use record::{RecordFault, one_record, read_record};
pub use sink::{Sink, put_all, put_number};
pub use source::{Source, first_room, widen};
pub use written::{
    SinkFailed, write_entries, write_entry, write_header, write_line, write_record, write_waited,
};

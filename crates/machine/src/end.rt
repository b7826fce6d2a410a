//! How a run ends.

use std::alloc::Allocator;

/// The end of a run.
#[derive(Debug, Drop)]
pub enum End<A: Allocator> {
    /// The script asked for this status, or came to its end with 0 (exit(n)).
    Exit(i64),
    /// An error that nothing caught; its text was written to standard error.
    Error(Vec<u8, A>),
    /// All ticks were used.
    Limit,
    /// A write to standard output, standard error or the log failed.
    WriterFailed,
    /// The answer of this number, counted from 1 over all acts, does not fit its act.
    BadAnswer(u64),
    /// The world had no more answers.
    NoMore,
}

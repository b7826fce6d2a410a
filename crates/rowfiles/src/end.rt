//! How a run ends, as a row says it.

/// The end of a run.
#[derive(Drop)]
pub enum End {
    /// With this status.
    Exit(i64),
    /// By an error of this text that nothing caught.
    Error(Vec<u8>),
    /// All ticks were used.
    Limit,
    /// A write to standard output, standard error or the log failed.
    WriterFailed,
    /// The answer of this number, counted from 1, does not fit its act.
    BadAnswer(u64),
    /// The world had no more answers.
    NoMore,
}

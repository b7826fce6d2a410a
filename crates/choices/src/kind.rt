//! What ids are opened for.

/// What an id was opened for.
#[derive(Clone, Copy, Debug, PartialEq, Eq)]
pub enum Kind {
    /// A process of this number (expect(1), spawn).
    Process(u64),
    /// A connection, which is a channel to scripts (socket(n)).
    Socket,
}

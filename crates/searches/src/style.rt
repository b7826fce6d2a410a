//! In which way a text is sought.

/// How a text is sought (expect(1), expect).
#[derive(Clone, Copy, Debug, PartialEq, Eq)]
pub enum Style {
    /// As a glob.
    Glob,
    /// As it stands.
    Exact,
}

//! Why a text is no formula.

use thiserror::Error;

/// Why a text is no formula. A text has at most one fault, the first from the left.
#[derive(Clone, Copy, Debug, PartialEq, Eq, Error)]
pub enum Fault {
    /// A variable, a script, or a text in quotes or braces has this fault, or too much is open at
    /// one place: brackets, indexes, parentheses, calls, prefixes and choices together more than
    /// [`MAX_OPEN`](tclparse::MAX_OPEN).
    #[error("{0}")]
    Words(tclparse::Fault),
    /// What stands next, or the end of the text, does not fit the grammar.
    #[error("syntax error in expression")]
    Syntax,
}

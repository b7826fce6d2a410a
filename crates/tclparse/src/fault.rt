//! Why a text is not a script.

use thiserror::Error;

/// Why a text is not a script. A text has at most one fault, the first from the left.
#[derive(Clone, Copy, Debug, PartialEq, Eq, Error)]
pub enum Fault {
    /// The text ends in a word that began with `{`.
    #[error("missing close-brace")]
    OpenBrace,
    /// The text ends in a script that began with `[`.
    #[error("missing close-bracket")]
    OpenBracket,
    /// The text ends in a word that began with `"`.
    #[error("missing \"")]
    OpenQuote,
    /// A word continues after its closing `}`.
    #[error("extra characters after close-brace")]
    AfterBrace,
    /// A word continues after its closing `"`.
    #[error("extra characters after close-quote")]
    AfterQuote,
    /// More brackets and indexes are open at one place than [`MAX_OPEN`](crate::MAX_OPEN); in a
    /// formula parentheses, calls, prefixes and choices count too.
    #[error("nested too deeply")]
    TooDeep,
    /// The text has an escape that begins with `\u` or `\U`.
    #[error("\\u and \\U are not in this profile")]
    EscapeNotHere,
    /// A name that no variable may have here, or one whose index or brace is not closed.
    #[error("bad variable name")]
    BadVariable,
}

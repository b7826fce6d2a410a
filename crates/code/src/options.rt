//! The options of `switch` (switch(n)).

ghost use Rattle.std.specs.Prelude.{◌≡◌, length};
ghost use Rattle.code.specs.Switch.{are_globs, words_before};

/// How the patterns of a `switch` are compared with its string (switch(n)).
#[derive(Clone, Copy, Debug)]
pub enum Flag {
    /// Byte by byte.
    Exact,
    /// As `string match` does (string(n)).
    Glob,
}

/// The options of a `switch` (switch(n)).
#[derive(Clone, Copy, Debug)]
pub struct Options {
    /// `-exact` or `-glob`, where one of them stands first.
    pub flag: Option<Flag>,
    /// Whether `--` stands before the string.
    pub dashes: bool,
}

impl Options {
    /// Whether the patterns are globs; without a flag they are not.
    pub(crate) fn globs(self) -> bool
        ensures { result ≡ are_globs self.flag }
    {
        matches!(self.flag, Some(Flag::Glob))
    }

    /// How many words stand before the string.
    pub(crate) fn before(self) -> usize
        ensures { result ≡ length (words_before self) }
    {
        1 + usize::from(self.flag.is_some()) + usize::from(self.dashes)
    }
}

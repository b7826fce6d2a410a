//! What a word of an `expect` says where a flag or a pattern may stand.
ghost use Rattle.std.specs.Prelude.{◌≡◌};
ghost use Rattle.readings.specs.Parts.{begins_with_dash, timeout_sign, alone_sign, flag_sign, plain_sign, sign};
ghost use Rattle.readings.specs.Signs.{sign_by};

use searches::Style;

/// A flag of the next branch (expect(1), expect).
#[derive(Clone, Copy, Debug, PartialEq, Eq)]
pub enum Mark {
    /// `-notransfer`.
    Stays,
    /// `-indices`.
    TellsPlaces,
    /// `-nocase`.
    Folds,
}

/// A keyword (expect(1), expect).
#[derive(Clone, Copy, Debug, PartialEq, Eq)]
pub enum Keyword {
    FullBuffer,
    Eof,
    Timeout,
    Default,
}

/// What a word says where a flag or a pattern may stand (expect(1), expect).
#[derive(Clone, Copy, Debug, PartialEq, Eq)]
pub enum Sign {
    /// A flag of the next branch.
    Mark(Mark),
    /// `-re`, which this project leaves out.
    Regex,
    /// A word that is no flag.
    Bad,
    /// A list of ids follows.
    Ids,
    /// Seconds follow.
    Seconds,
    /// A pattern follows.
    Pattern(Style),
    /// A keyword.
    Keyword(Keyword),
    /// A glob.
    Plain,
}

impl Sign {
    /// What a word says; `standing` is whether it is a word of `expect_before` or `expect_after`.
    pub fn of(standing: bool, word: &[u8]) -> Sign
        ensures { sign_by word.now result ≡ sign standing word.now }
    {
        if matches!(word, [b'-', ..]) {
            flag_sign(standing, word)
        } else {
            plain_sign(word)
        }
    }
}

/// What a word says that begins with a dash.
fn flag_sign(standing: bool, word: &[u8]) -> Sign
    ensures { sign_by word.now result ≡ flag_sign standing word.now }
{
    if word == b"-i".as_slice() {
        Sign::Ids
    } else if word == b"-timeout".as_slice() {
        if standing { Sign::Bad } else { Sign::Seconds }
    } else if word == b"-gl".as_slice() || word == b"-glob".as_slice() {
        Sign::Pattern(Style::Glob)
    } else if word == b"-ex".as_slice() || word == b"-exact".as_slice() {
        Sign::Pattern(Style::Exact)
    } else {
        alone_sign(word)
    }
}

/// What a word says that begins with a dash and takes no word after it.
fn alone_sign(word: &[u8]) -> Sign
    ensures { sign_by word.now result ≡ alone_sign word.now }
{
    if word == b"-notransfer".as_slice() {
        Sign::Mark(Mark::Stays)
    } else if word == b"-indices".as_slice() {
        Sign::Mark(Mark::TellsPlaces)
    } else if word == b"-nocase".as_slice() {
        Sign::Mark(Mark::Folds)
    } else if word == b"-re".as_slice() || word == b"-regexp".as_slice() {
        Sign::Regex
    } else {
        Sign::Bad
    }
}

/// What a word says that does not begin with a dash.
fn plain_sign(word: &[u8]) -> Sign
    ensures { sign_by word.now result ≡ plain_sign word.now }
{
    if word == b"eof".as_slice() {
        Sign::Keyword(Keyword::Eof)
    } else if word == b"timeout".as_slice() {
        Sign::Keyword(Keyword::Timeout)
    } else if word == b"default".as_slice() {
        Sign::Keyword(Keyword::Default)
    } else if word == b"full_buffer".as_slice() {
        Sign::Keyword(Keyword::FullBuffer)
    } else if word == b"null".as_slice() {
        Sign::Bad
    } else {
        Sign::Plain
    }
}

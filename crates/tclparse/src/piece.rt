//! What stands next in a word.

ghost use Rattle.std.specs.Prelude.{◌≡◌, ◌+◌, ◌<◌, length, false};
ghost use Rattle.tclparse.specs.Piece.{ends_parts, next, next_part, next_escape, next_bracket, next_dollar};
ghost use Rattle.tclparse.specs.Seen.{place_of, seen, IsShorter, OpensWithin, IsNotEnd};

use crate::context::{Context, ends_word};
use crate::fault::Fault;
use crate::variable::dollar;
use tcltext::escape;

/// Where the parts of a word stand, which determines where they end.
#[derive(Clone, Copy)]
pub enum Place {
    /// In a bare word.
    Bare(Context),
    /// Between quotes.
    Quotes,
    /// In the parentheses of a variable's index.
    Index,
}

/// What stands next in a word; each variant but `End` and `Fault` holds the text after it last.
pub enum Piece<'a> {
    /// The place ends here.
    End,
    /// The word can't go on.
    Fault(Fault),
    /// One byte of the value.
    Byte(u8, &'a [u8]),
    /// A variable by its name.
    Name(&'a [u8], &'a [u8]),
    /// An element of the array of that name; the text after it begins with the index, which ends at
    /// `)`.
    Index(&'a [u8], &'a [u8]),
    /// An element of the array of that name; the index is these bytes themselves, as in
    /// `${name(index)}`.
    Element(&'a [u8], &'a [u8], &'a [u8]),
    /// A script in brackets; the text after it begins with the script, which ends at `]`.
    Bracket(&'a [u8]),
}

fn ends_parts(place: Place, text: &[u8]) -> bool
    ensures { result ≡ ends_parts (place_of place) text.now }
{
    match place {
        Place::Bare(context) => ends_word(context, text),
        Place::Quotes => match text {
            [] => true,
            [c, ..] => *c == b'"',
        },
        Place::Index => match text {
            [] => true,
            [c, ..] => *c == b')',
        },
    }
}

// The piece that a backslash before this text begins.
fn escaped(text: &[u8]) -> Piece<'_>
    ensures piece { seen result ≡ next_escape text.now }
    ensures shorter { IsShorter result (length text.now + 1) }
    ensures within { OpensWithin result 0 }
    ensures moves { IsNotEnd result }
{
    match escape::read(text) {
        Ok((byte, rest)) => Piece::Byte(byte, rest),
        Err(_) => Piece::Fault(Fault::EscapeNotHere),
    }
}

// The piece that an open bracket before this text begins, where `depth` more may be open.
fn bracket(depth: u32, text: &[u8]) -> Piece<'_>
    ensures piece { seen result ≡ next_bracket depth text.now }
    ensures shorter { IsShorter result (length text.now + 1) }
    ensures within { OpensWithin result depth }
    ensures moves { IsNotEnd result }
{
    if depth == 0 {
        Piece::Fault(Fault::TooDeep)
    } else {
        Piece::Bracket(text)
    }
}

/// The next piece of a text, without asking whether a word ends at its beginning; `depth` more
/// brackets and indexes may be open.
pub(crate) fn next_part(depth: u32, text: &[u8]) -> Piece<'_>
    ensures piece { seen result ≡ next_part depth text.now }
    ensures shorter { IsShorter result (length text.now) }
    ensures within { OpensWithin result depth }
    ensures moves { 0 < length text.now → IsNotEnd result }
{
    match text {
        [] => Piece::End,
        [b'\\', rest @ ..] => escaped(rest),
        [b'$', rest @ ..] => dollar(depth, rest),
        [b'[', rest @ ..] => bracket(depth, rest),
        [c, rest @ ..] => Piece::Byte(*c, rest),
    }
}

/// The next piece of a word, where `depth` more brackets and indexes may be open.
pub(crate) fn next(place: Place, depth: u32, text: &[u8]) -> Piece<'_>
    ensures piece { seen result ≡ next (place_of place) depth text.now }
    ensures shorter { IsShorter result (length text.now) }
    ensures within { OpensWithin result depth }
    ensures moves { ends_parts (place_of place) text.now ≡ false → IsNotEnd result }
{
    if ends_parts(place, text) {
        Piece::End
    } else {
        next_part(depth, text)
    }
}

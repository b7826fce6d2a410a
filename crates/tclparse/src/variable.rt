//! What stands after a `$`.

ghost use Rattle.std.specs.Prelude.{◌≡◌, ◌+◌, ◌<◌, ◌≤◌, length};
ghost use Rattle.tclparse.specs.Variable.{is_name, name_at, after_name};
ghost use Rattle.tclparse.specs.Piece.{next_dollar, next_name, next_braced};
ghost use Rattle.tclparse.specs.Seen.{seen, IsShorter, OpensWithin, IsNotEnd};

use crate::fault::Fault;
use crate::name::{Name, begins_with_colons, split_before, variable_name};
use crate::piece::Piece;

fn is_name(c: u8) -> bool
    ensures { result ≡ is_name c }
{
    c.is_ascii_alphanumeric() || c == b'_'
}

/// The longest name at the front, of letters, digits and underscores, and the text after it. Takes
/// no memory.
pub fn split_name(text: &[u8]) -> (&[u8], &[u8])
    ensures name { result.0.now ≡ name_at text.now }
    ensures rest { result.1.now ≡ after_name text.now }
    ensures shorter { length result.1.now ≤ length text.now }
    ensures moves { 0 < length result.0.now → length result.1.now < length text.now }
{
    let mut len = 0;
    while len < text.len() && is_name(text[len]) {
        len += 1;
    }
    text.split_at(len)
}

// What `${name}` stands for, with the text `rest` after its closing brace.
fn braced<'a>(name: &'a [u8], rest: &'a [u8]) -> Piece<'a>
    ensures piece { seen result ≡ next_braced name.now rest.now }
    ensures shorter { IsShorter result (length rest.now + 1) }
    ensures within { OpensWithin result 0 }
    ensures moves { IsNotEnd result }
{
    match variable_name(name) {
        Err(fault) => Piece::Fault(fault),
        Ok(Name { name, index: None }) => Piece::Name(name, rest),
        Ok(
            Name {
                name,
                index: Some(index),
            },
        ) => Piece::Element(name, index, rest),
    }
}

// What `$name` stands for, with the text `rest` after the name.
fn named<'a>(depth: u32, name: &'a [u8], rest: &'a [u8]) -> Piece<'a>
    ensures piece { seen result ≡ next_name depth name.now rest.now }
    ensures shorter { IsShorter result (length rest.now + 1) }
    ensures within { OpensWithin result depth }
    ensures moves { IsNotEnd result }
{
    if begins_with_colons(rest) {
        return Piece::Fault(Fault::BadVariable);
    }
    match rest {
        [b'(', inner @ ..] => {
            if depth == 0 {
                Piece::Fault(Fault::TooDeep)
            } else {
                Piece::Index(name, inner)
            }
        }
        _ => Piece::Name(name, rest),
    }
}

/// The piece that a `$` before this text begins, where `depth` more brackets and indexes may be
/// open.
pub(crate) fn dollar(depth: u32, text: &[u8]) -> Piece<'_>
    ensures piece { seen result ≡ next_dollar depth text.now }
    ensures shorter { IsShorter result (length text.now + 1) }
    ensures within { OpensWithin result depth }
    ensures moves { IsNotEnd result }
{
    match text {
        [b'{', inner @ ..] => {
            let (name, end) = split_before(b'}', inner);
            match end {
                [_, rest @ ..] => braced(name, rest),
                [] => Piece::Fault(Fault::BadVariable),
            }
        }
        [b'(', ..] => Piece::Fault(Fault::BadVariable),
        _ => {
            let (name, rest) = split_name(text);
            if !name.is_empty() {
                named(depth, name, rest)
            } else if begins_with_colons(text) {
                Piece::Fault(Fault::BadVariable)
            } else {
                Piece::Byte(b'$', text)
            }
        }
    }
}

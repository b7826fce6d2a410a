//! One element of a list: braced, quoted or bare.

ghost use Rattle.std.specs.Prelude.{◌≡◌, ◌<◌, ◌≤◌, ◌+◌, false, length, IfOk};
ghost use Rattle.tcltext.specs.White.{ends_element};
ghost use Rattle.tcltext.specs.Style.{stops};
ghost use Rattle.tcltext.specs.Elements.{next, opening, in_braces, in_quotes, bare};
ghost use Rattle.tcltext.specs.Seen.{seen, seen_opening, style_of};
ghost use Rattle.tcltext.specs.Reads.{IsShorter, OpensShorter, ReadsSpelled, ReadsElement};

use super::ListFault;
use crate::white::{ends_element, is_white};
use crate::{braces, escape};
use std::alloc::Allocator;

/// How the bytes of an element outside braces are spelled.
#[derive(Clone, Copy)]
pub(crate) enum Style {
    /// A bare element, which goes up to white space.
    Bare,
    /// An element in quotes, which goes up to the next quote.
    Quoted,
}

/// What stands next in an element that is bare or in quotes.
#[derive(Drop)]
pub(crate) enum Piece<'a> {
    /// The text's end.
    End,
    /// The byte that ends the element, and the text after it.
    Stop(&'a [u8]),
    /// A byte of the element, and the text after its spelling.
    Byte(u8, &'a [u8]),
    /// An escape that this profile leaves out.
    NoEscape,
}

/// How an element begins, and the text after that.
pub(crate) enum Opening<'a> {
    Braces(&'a [u8]),
    Quotes(&'a [u8]),
    Bare(&'a [u8]),
}

fn stops(style: Style, c: u8) -> bool
    ensures { result ≡ stops (style_of style) c }
{
    match style {
        Style::Bare => is_white(c),
        Style::Quoted => c == b'"',
    }
}

fn next(style: Style, text: &[u8]) -> Piece<'_>
    ensures piece { seen result ≡ next (style_of style) text.now }
    ensures shorter { IsShorter result (length text.now) }
{
    match text {
        [] => Piece::End,
        [c, behind @ ..] if stops(style, *c) => Piece::Stop(behind),
        [b'\\', behind @ ..] => match escape::read(behind) {
            Ok((byte, rest)) => Piece::Byte(byte, rest),
            Err(_) => Piece::NoEscape,
        },
        [c, behind @ ..] => Piece::Byte(*c, behind),
    }
}

fn open(text: &[u8]) -> Opening<'_>
    ensures opening { seen_opening result ≡ opening text.now }
    ensures shorter { OpensShorter result (length text.now) }
{
    match text {
        [b'{', body @ ..] => Opening::Braces(body),
        [b'"', body @ ..] => Opening::Quotes(body),
        _ => Opening::Bare(text),
    }
}

/// Reads one element at the front of a text that begins with no white: its bytes, and the text
/// after it.
pub(crate) fn read<A: Allocator>(alloc: A, text: &[u8]) -> Result<(Vec<u8, A>, &[u8]), ListFault>
    requires { ends_element text.now ≡ false }
    ensures element { ReadsElement (opening text.now) result }
    ensures shorter { IfOk result (λ r. length r.1.now < length text.now) }
{
    match open(text) {
        Opening::Braces(body) => read_braced(alloc, body),
        Opening::Quotes(body) => read_quoted(alloc, body),
        Opening::Bare(body) => read_bare(alloc, body),
    }
}

fn read_braced<A: Allocator>(alloc: A, text: &[u8]) -> Result<(Vec<u8, A>, &[u8]), ListFault>
    ensures element { ReadsElement (in_braces text.now) result }
    ensures shorter { IfOk result (λ r. length r.1.now ≤ length text.now) }
{
    let Some((body, rest)) = braces::split(text) else {
        return Err(ListFault::OpenBrace);
    };
    if !ends_element(rest) {
        return Err(ListFault::AfterBrace);
    }
    let bytes = Vec::from_slice(alloc, body)?;
    Ok((bytes, rest))
}

fn read_quoted<A: Allocator>(alloc: A, text: &[u8]) -> Result<(Vec<u8, A>, &[u8]), ListFault>
    ensures element { ReadsElement (in_quotes text.now) result }
    ensures shorter { IfOk result (λ r. length r.1.now ≤ length text.now) }
{
    let (bytes, end) = read_spelled(alloc, Style::Quoted, text)?;
    let [_quote, rest @ ..] = end else {
        return Err(ListFault::OpenQuote);
    };
    if !ends_element(rest) {
        return Err(ListFault::AfterQuote);
    }
    Ok((bytes, rest))
}

fn read_bare<A: Allocator>(alloc: A, text: &[u8]) -> Result<(Vec<u8, A>, &[u8]), ListFault>
    requires { ends_element text.now ≡ false }
    ensures element { ReadsElement (bare text.now) result }
    ensures shorter { IfOk result (λ r. length r.1.now < length text.now) }
{
    read_spelled(alloc, Style::Bare, text)
}

// The bytes of an element up to its end, and the text from there on.
fn read_spelled<A: Allocator>(
    alloc: A,
    style: Style,
    text: &[u8],
) -> Result<(Vec<u8, A>, &[u8]), ListFault>
    ensures bytes { ReadsSpelled (style_of style) text.now result }
    ensures shorter { IfOk result (λ r. length r.0.items + length r.1.now ≤ length text.now) }
    ensures moves { IfOk result (λ r. length r.0.items ≡ 0 → r.1.now ≡ text.now) }
{
    let mut bytes = Vec::new(alloc);
    let mut rest = text;
    loop {
        match next(style, rest) {
            Piece::Byte(byte, behind) => {
                bytes.push(byte)?;
                rest = behind;
            }
            Piece::NoEscape => return Err(ListFault::EscapeNotHere),
            _ => return Ok((bytes, rest)),
        }
    }
}

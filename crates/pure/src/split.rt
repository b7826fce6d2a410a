//! `split t ?bytes?` (split(n)).

ghost use Rattle.std.specs.Prelude.{◌≡◌, ◌<◌, [], ◌∷◌, ◌++◌, length, map, if◌then◌else◌, IfOk, IfSome, MatchOption, OnOk};
ghost use Rattle.std.specs.List.{slice_split};
ghost use Rattle.pure.specs.Split as meant;
ghost use Rattle.pure.specs.Trim.{is_among};
ghost use Rattle.meanings.specs.View.{Answers};
ghost use Rattle.tcltext.specs.Canonical.{canonical, written};

use crate::words::wrong_args;
use acts::Raise;
use memory::NoMemory;
use std::alloc::Allocator;
use tcltext::{Value, push_element};

/// The list of the pieces of a text.
pub fn split<A: Allocator + Copy>(alloc: A, words: &[Value<A>]) -> Result<Value<A>, Raise<A>>
    ensures { Answers (meant.split words.now) result }
{
    let list = match words {
        [text] => pieces(alloc, b" \t\n\r", text.as_slice())?,
        [text, bytes] => pieces(alloc, bytes.as_slice(), text.as_slice())?,
        _ => return wrong_args(alloc, b"split"),
    };
    Ok(Value::new(alloc, list)?)
}

/// The list of the pieces of a text that is cut at these bytes, or into single bytes where there
/// are none.
fn pieces<A: Allocator>(alloc: A, bytes: &[u8], text: &[u8]) -> Result<Vec<u8, A>, NoMemory>
    ensures { IfOk result (λ list. list.items ≡ canonical (meant.pieces bytes.now text.now)) }
{
    if text.is_empty() {
        Ok(Vec::new(alloc))
    } else if bytes.is_empty() {
        each_byte(alloc, text)
    } else {
        cut_at(alloc, bytes, text)
    }
}

/// The list of the bytes of a text.
fn each_byte<A: Allocator>(alloc: A, text: &[u8]) -> Result<Vec<u8, A>, NoMemory>
    ensures { IfOk result (λ list. list.items ≡ canonical (map (λ b. b ∷ []) text.now)) }
{
    let mut list = Vec::with_capacity(alloc, text.len().saturating_mul(2))?;
    let mut first = true;
    for byte in text {
        push_next(&mut list, first, &[*byte])?;
        first = false;
    }
    Ok(list)
}

/// The list of the pieces of a text before, between and after those of its bytes that are among
/// `bytes`.
fn cut_at<A: Allocator>(alloc: A, bytes: &[u8], text: &[u8]) -> Result<Vec<u8, A>, NoMemory>
    ensures { IfOk result (λ list.
        list.items ≡ canonical (slice_split (is_among bytes.now) text.now)) }
{
    let mut list = Vec::with_capacity(alloc, text.len())?;
    let mut first = true;
    let mut rest = text;
    while let Some((piece, behind)) = first_piece(bytes, rest) {
        push_next(&mut list, first, piece)?;
        first = false;
        rest = behind;
    }
    push_next(&mut list, first, rest)?;
    Ok(list)
}

/// The text before and after its first byte that is among `bytes`; `None` where no byte is.
fn first_piece<'a>(bytes: &[u8], text: &'a [u8]) -> Option<(&'a [u8], &'a [u8])>
    ensures pieces { let cut = slice_split (is_among bytes.now) in MatchOption result
        (cut text.now ≡ text.now ∷ [])
        (λ found. cut text.now ≡ found.0.now ∷ cut found.1.now) }
    ensures shorter { IfSome result (λ found. length found.1.now < length text.now) }
{
    for (place, byte) in text.iter().enumerate() {
        if is_among(bytes, *byte) {
            return Some((&text[..place], &text[place + 1..]));
        }
    }
    None
}

/// Whether a byte is one of these.
fn is_among(bytes: &[u8], byte: u8) -> bool
    ensures { result ≡ is_among bytes.now byte }
{
    match bytes {
        [one] => *one == byte,
        _ => bytes.contains(&byte),
    }
}

/// Appends an element to a list, with a blank before it where it is not the first.
fn push_next<A: Allocator>(
    list: &mut Vec<u8, A>,
    first: bool,
    element: &[u8],
) -> Result<(), NoMemory>
    ensures { OnOk result (list.new.items ≡
        list.old.items ++ ((if first then [] else 32 ∷ []) ++ written first element.now)) }
{
    if !first {
        list.push(b' ')?;
    }
    push_element(list, first, element)
}

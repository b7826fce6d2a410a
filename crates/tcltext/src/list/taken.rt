//! One element at the front of a text, whose bytes are copied only where they don't stand there as
//! they are.

ghost use Rattle.std.specs.Prelude.{◌≡◌, ◌<◌, ◌≤◌, false, length, IfOk, IfSome};
ghost use Rattle.std.specs.List.{position_or_len};
ghost use Rattle.tcltext.specs.Elements.{opening, in_braces, bare, IsOpened};
ghost use Rattle.tcltext.specs.Reads.{TakesElement};
ghost use Rattle.tcltext.specs.Seen.{bytes_of};
ghost use Rattle.tcltext.specs.White.{ends_element};
ghost use Rattle.tcltext.specs.Style.{ends_plain};

use super::{ListFault, element};
use crate::braces;
use crate::kept_element::Element;
use crate::value::Value;
use crate::white::{ends_element, is_white};
use memory::NoMemory;
use std::alloc::Allocator;

/// The bytes of an element.
#[derive(Drop)]
pub(crate) enum Taken<'a, A: Allocator> {
    /// They stand in the text as they are.
    Here(&'a [u8]),
    /// They are spelled otherwise in the text.
    Apart(Vec<u8, A>),
}

impl<A: Allocator> Taken<'_, A> {
    /// The bytes.
    pub(crate) fn as_slice(&self) -> &[u8]
        ensures { result.now ≡ bytes_of self.now }
    {
        match self {
            Taken::Here(bytes) => bytes,
            Taken::Apart(bytes) => bytes.as_slice(),
        }
    }
}

impl<A: Allocator + Copy> Taken<'_, A> {
    /// A value of the bytes.
    pub(crate) fn value(self, alloc: A) -> Result<Value<A>, NoMemory>
        ensures { IfOk result (λ value. value ≡ bytes_of self.entry) }
    {
        match self {
            Taken::Here(bytes) => Value::from_slice(alloc, bytes),
            Taken::Apart(bytes) => Value::new(alloc, bytes),
        }
    }

    /// An element with the bytes, to be kept.
    pub(crate) fn kept(self, alloc: A) -> Result<Element<A>, NoMemory>
        ensures { IfOk result (λ element. element ≡ bytes_of self.entry) }
    {
        match self {
            Taken::Here(bytes) => Element::from_slice(alloc, bytes),
            Taken::Apart(bytes) => Element::new(alloc, bytes),
        }
    }
}

/// Reads one element at the front of a text that begins with no white: its bytes, and the text
/// after it (Tcl_SplitList(3)). Memory is asked for only where the bytes are spelled otherwise.
#[inline(always)]
pub(crate) fn take<A: Allocator>(alloc: A, text: &[u8]) -> Result<(Taken<'_, A>, &[u8]), ListFault>
    requires { ends_element text.now ≡ false }
    ensures element { TakesElement (opening text.now) result }
    ensures shorter { IfOk result (λ r. length r.1.now < length text.now) }
{
    match plain(text) {
        Some((bytes, rest)) => Ok((Taken::Here(bytes), rest)),
        None => take_apart(alloc, text),
    }
}

/// Reads one element as [`take`] does, and puts its bytes apart.
#[inline(never)]
fn take_apart<A: Allocator>(alloc: A, text: &[u8]) -> Result<(Taken<'_, A>, &[u8]), ListFault>
    requires { ends_element text.now ≡ false }
    ensures element { TakesElement (opening text.now) result }
    ensures shorter { IfOk result (λ r. length r.1.now < length text.now) }
{
    match element::read(alloc, text) {
        Ok((bytes, rest)) => Ok((Taken::Apart(bytes), rest)),
        Err(fault) => Err(fault),
    }
}

/// The element at the front of a text that begins with no white, and the text after it, where its
/// bytes stand in the text as they are: it is bare or in braces, and has no escape. `None` also
/// where it has a flaw.
#[inline(always)]
fn plain(text: &[u8]) -> Option<(&[u8], &[u8])>
    requires { ends_element text.now ≡ false }
    ensures element { IfSome result (λ r. IsOpened (opening text.now) (Ok (r.0.now, r.1.now))) }
    ensures shorter { IfSome result (λ r. length r.1.now < length text.now) }
{
    match text {
        [b'{', body @ ..] => braced(body),
        [b'"', ..] => None,
        _ => bare(text),
    }
}

/// The element after an open brace, and the text after its closing one; `None` where it has a flaw.
fn braced(text: &[u8]) -> Option<(&[u8], &[u8])>
    ensures element { IfSome result (λ r. IsOpened (in_braces text.now) (Ok (r.0.now, r.1.now))) }
    ensures shorter { IfSome result (λ r. length r.1.now ≤ length text.now) }
{
    let (bytes, rest) = braces::split(text)?;
    if ends_element(rest) {
        Some((bytes, rest))
    } else {
        None
    }
}

/// The bare element at the front of a text, and the text after it; `None` where it has a backslash.
#[inline(always)]
fn bare(text: &[u8]) -> Option<(&[u8], &[u8])>
    requires { ends_element text.now ≡ false }
    ensures element { IfSome result (λ r. IsOpened (bare text.now) (Ok (r.0.now, r.1.now))) }
    ensures shorter { IfSome result (λ r. length r.1.now < length text.now) }
{
    let (bytes, rest) = text.split_at(plain_len(text));
    if ends_element(rest) {
        Some((bytes, rest))
    } else {
        None
    }
}

/// Whether a byte is white or a backslash.
fn ends_plain(c: u8) -> bool
    ensures { result ≡ ends_plain c }
{
    is_white(c) || c == b'\\'
}

/// How many bytes stand before the first that is white or a backslash.
#[inline(always)]
fn plain_len(text: &[u8]) -> usize
    ensures place { result ≡ position_or_len ends_plain text.now }
    ensures within { result ≤ length text.now }
{
    for (place, byte) in text.iter().enumerate() {
        if ends_plain(*byte) {
            return place;
        }
    }
    text.len()
}

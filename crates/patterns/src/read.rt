//! Reads the text of a glob.
ghost use Rattle.std.specs.Prelude.{◌≡◌, ◌<◌, ◌≤◌, ◌∷◌, [], length, map, if◌then◌else◌, IfOk, MatchOption};
ghost use Rattle.patterns.specs.Glob.{signs, signs_in_set, item_of, bare, is_dollar, ends_in_dollar, before_dollar, begins_in_caret, after_caret};
ghost use Rattle.patterns.specs.Runs.{items_of_runs, item_of_token};
ghost use Rattle.patterns.specs.Item.{any_run};
ghost use Rattle.patterns.specs.Sign.{sign_of};

use crate::run::{Run, Runs};
use crate::set::read_set;
use crate::token::Token;
use memchr::memchr;
use memory::NoMemory;
use std::alloc::Allocator;
use std::boxed::Box;

/// What stands next in the text of a glob.
#[derive(Drop)]
pub enum Sign<'a> {
    /// A byte with no backslash before it.
    Bare(u8),
    /// A byte after a backslash.
    Quoted(u8),
    /// The text of a set, without its brackets.
    Set(&'a [u8]),
}

/// The runs of a glob's text, and whether its last sign is a bare `$`, which is left out of the
/// runs if `may_tie`.
pub fn read_runs<A: Allocator + Copy>(
    alloc: A,
    text: &[u8],
    may_tie: bool,
) -> Result<(Runs<A>, bool), NoMemory>
    ensures items { let all = signs text.now in IfOk result (λ read.
        items_of_runs read.0 ≡ map item_of (if may_tie then before_dollar all else all)) }
    ensures dollar { IfOk result (λ read. read.1 ≡ ends_in_dollar (signs text.now)) }
{
    let mut starred = Vec::new(alloc);
    let mut last = Run::Text(Vec::new(alloc));
    let mut dollar = false;
    let mut rest = text;
    while let Some((sign, after)) = next_sign(rest) {
        dollar = is_dollar(&sign);
        if may_tie && dollar && after.is_empty() {
            break;
        }
        match token_of(alloc, sign)? {
            Some(token) => last = last.with(alloc, token)?,
            None => {
                starred.push(last)?;
                last = Run::Text(Vec::new(alloc));
            }
        }
        rest = after;
    }
    Ok((Runs { starred, last }, dollar))
}

/// The sign at the beginning of the text, and what stands after it.
fn next_sign(text: &[u8]) -> Option<(Sign<'_>, &[u8])>
    ensures sign { MatchOption result
        (text.now ≡ [])
        (λ read. signs text.now ≡ sign_of read.0 ∷ signs read.1.now) }
    ensures shorter { MatchOption result
        (text.now ≡ [])
        (λ read. length read.1.now < length text.now) }
{
    match text {
        [] => None,
        [b'\\', byte, after @ ..] => Some((Sign::Quoted(*byte), after)),
        [b'[', after @ ..] => Some(next_set(after)),
        [byte, after @ ..] => Some((Sign::Bare(*byte), after)),
    }
}

/// The token of a sign, or `None` for a `*`.
fn token_of<A: Allocator>(alloc: A, sign: Sign<'_>) -> Result<Option<Token<A>>, NoMemory>
    ensures { IfOk result (λ read. MatchOption read
        (item_of (sign_of sign.entry) ≡ any_run)
        (λ token. item_of_token token ≡ item_of (sign_of sign.entry))) }
{
    match sign {
        Sign::Bare(b'*') => Ok(None),
        Sign::Bare(b'?') => Ok(Some(Token::AnyByte)),
        Sign::Bare(byte) | Sign::Quoted(byte) => Ok(Some(Token::Literal(byte))),
        Sign::Set(text) => Ok(Some(Token::Set(Box::new(alloc, read_set(text))?))),
    }
}

/// Whether the text begins with `^`, and the text without that `^`.
pub fn split_caret(text: &[u8]) -> (bool, &[u8])
    ensures tied { result.0 ≡ begins_in_caret text.now }
    ensures body { result.1.now ≡ after_caret text.now }
{
    match text {
        [b'^', body @ ..] => (true, body),
        _ => (false, text),
    }
}

/// The set after a `[`, and what stands after the set.
fn next_set(text: &[u8]) -> (Sign<'_>, &[u8])
    ensures sign { signs_in_set [] text.now ≡ sign_of result.0 ∷ signs result.1.now }
    ensures shorter { length result.1.now ≤ length text.now }
{
    match memchr(b']', text) {
        Some(end) => (Sign::Set(&text[..end]), &text[end + 1..]),
        None => (Sign::Set(text), &[]),
    }
}

/// Whether a sign is a bare `$`.
fn is_dollar(sign: &Sign<'_>) -> bool
    ensures { result ≡ is_dollar (sign_of sign.now) }
{
    matches!(sign, Sign::Bare(b'$'))
}

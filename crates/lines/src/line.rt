//! The lines of records.

ghost use Rattle.std.specs.Prelude.{◌≡◌, ◌≢◌, ◌^◌, ◌<◌, ◌≤◌, ◌*◌, ◌∷◌, ◌++◌, ℕ, List, codes, decimal, length, MatchOption, IfOk, IfSome, IfNone, MatchBool};
ghost use Rattle.acts.specs.Deed.{Reply, reply_of};
ghost use Rattle.acts.specs.Fits.{greatest_status};
ghost use Rattle.acts.specs.Id.{id_text};
ghost use Rattle.hex.specs.Hex.{IsBytes, encode_lower};
ghost use Rattle.lines.specs.Line.{IsArrival, IsLine, arrival_text, newline};

use crate::digits::{count_digits, read_checked, read_digits};
use crate::numbers::{cut_id, read_decimal, read_id};
use acts::{Answer, Id, NoMemory};
use std::alloc::{Allocator, Global};

/// The answer whose line this is, without the newline, where it is no arrival; `None` where it is
/// the line of no such answer.
pub fn read_other<A: Allocator>(line: &[u8]) -> Option<Answer<A>>
    ensures { MatchOption result
        ((reply : Reply) → IsLine reply line.now → IsArrival reply)
        (λ answer. IsLine (reply_of answer) line.now) }
{
    if line == b"done".as_slice() {
        return Some(Answer::Done);
    }
    if line == b"refused".as_slice() {
        return Some(Answer::Refused);
    }
    if line == b"exited -".as_slice() {
        return Some(Answer::Exited(None));
    }
    if line == b"timeout".as_slice() {
        return Some(Answer::TimedOut);
    }
    if let Some(sent) = read_number(line, b"failed ") {
        return Some(Answer::Failed(sent));
    }
    if let Some(pid) = read_number(line, b"started ") {
        return Some(Answer::Started(pid));
    }
    if let Some(status) = read_status(line) {
        return Some(Answer::Exited(Some(status)));
    }
    match read_end(line) {
        Some(id) => Some(Answer::Ended(id)),
        None => None,
    }
}

/// Whether this is the line of an answer that is no arrival, as `read_other` says.
pub fn is_other(line: &[u8]) -> bool
    ensures { MatchBool result
        ((reply : Reply) × IsLine reply line.now)
        ((reply : Reply) → IsLine reply line.now → IsArrival reply) }
{
    let found: Option<Answer<Global>> = read_other(line);
    found.is_some()
}

/// The number after a word in a line; `None` where the line is not the word and a number.
fn read_number(line: &[u8], word: &[u8]) -> Option<u64>
    ensures number { IfSome result (λ number. line.now ≡ word.now ++ decimal number) }
    ensures none { IfNone result ((number : ℕ)
        → number < 2 ^ 64 → line.now ≢ word.now ++ decimal number) }
{
    let digits = line.strip_prefix(word)?;
    read_decimal(digits)
}

/// The status in the line of a process that ended with one.
fn read_status(line: &[u8]) -> Option<u8>
    ensures status { IfSome result (λ status. line.now ≡ codes "exited " ++ decimal status) }
    ensures none { IfNone result ((status : ℕ)
        → status ≤ greatest_status → line.now ≢ codes "exited " ++ decimal status) }
{
    let status = read_number(line, b"exited ")?;
    if status <= u8::MAX as u64 {
        Some(status as u8)
    } else {
        None
    }
}

/// The id in the line of an end.
fn read_end(line: &[u8]) -> Option<Id>
    ensures id { IfSome result (λ id. line.now ≡ codes "ended " ++ id_text id.0) }
    ensures none { IfNone result ((n : ℕ) → n < 2 ^ 64 → line.now ≢ codes "ended " ++ id_text n) }
{
    let name = line.strip_prefix(b"ended ")?;
    read_id(name)
}

/// The id and the digits of an arrival in the text that follows the word of its line, and what
/// follows the line; `None` where the text begins with no such id, digits and newline. The end of
/// the line is not looked for: the digits go up to it.
pub fn cut_arrival(text: &[u8]) -> Option<(Id, &[u8], &[u8])>
    ensures { MatchOption result
        ((n : ℕ) (bytes rest : List ℕ) → n < 2 ^ 64 → IsBytes bytes
        → text.now ≢ arrival_text n bytes ++ newline ∷ rest)
        (λ parts. (parts.0.0 < 2 ^ 64) × (bytes : List ℕ) × IsBytes bytes
        × (parts.1.now ≡ encode_lower bytes)
        × (text.now ≡ arrival_text parts.0.0 bytes ++ newline ∷ parts.2.now)) }
{
    let (id, after_id) = cut_id(text)?;
    let behind = after_id.strip_prefix(b" ")?;
    let (digits, after) = behind.split_at(count_digits(behind));
    let rest = after.strip_prefix(b"\n")?;
    if digits.len() % 2 == 0 {
        Some((id, digits, rest))
    } else {
        None
    }
}

/// The id and the bytes of an arrival of `len` bytes in the text that follows the word of its line,
/// and what follows the line. `None` says nothing of the text. The only error is refused memory.
pub fn read_likely<A: Allocator>(
    alloc: A,
    text: &[u8],
    len: usize,
) -> Result<Option<(Id, Vec<u8, A>, &[u8])>, NoMemory>
    ensures { IfOk result (λ found. IfSome found (λ parts. (parts.0.0 < 2 ^ 64)
        × IsBytes parts.1.items
        × (text.now ≡ arrival_text parts.0.0 parts.1.items ++ newline ∷ parts.2.now))) }
{
    let Some((id, digits, rest)) = cut_likely(text, len) else {
        return Ok(None);
    };
    let mut bytes = vec![in alloc; 0u8; len]?;
    if read_checked(digits, &mut bytes) {
        Ok(Some((id, bytes, rest)))
    } else {
        Ok(None)
    }
}

/// The id of an arrival, the part of its line where the digits of `len` bytes stand, and what
/// follows the line, where it ends there. It is not looked whether they are digits.
fn cut_likely(text: &[u8], len: usize) -> Option<(Id, &[u8], &[u8])>
    ensures { IfSome result (λ parts. (parts.0.0 < 2 ^ 64) × (length parts.1.now ≡ 2 * len)
        × (text.now ≡ id_text parts.0.0 ++ 32 ∷ (parts.1.now ++ newline ∷ parts.2.now))) }
{
    let (id, after_id) = cut_id(text)?;
    let behind = after_id.strip_prefix(b" ")?;
    if behind.len() / 2 < len {
        return None;
    }
    let (digits, end) = behind.split_at(2 * len);
    let rest = end.strip_prefix(b"\n")?;
    Some((id, digits, rest))
}

/// The bytes that lower case digits spell, two a byte. The only error is refused memory.
pub fn read_hex<A: Allocator>(alloc: A, digits: &[u8]) -> Result<Vec<u8, A>, NoMemory>
    requires { (bytes : List ℕ) × IsBytes bytes × (digits.now ≡ encode_lower bytes) }
    ensures bytes { IfOk result (λ bytes. IsBytes bytes.items) }
    ensures digits { IfOk result (λ bytes. digits.now ≡ encode_lower bytes.items) }
{
    let mut bytes = vec![in alloc; 0u8; digits.len() / 2]?;
    read_digits(digits, &mut bytes);
    Ok(bytes)
}

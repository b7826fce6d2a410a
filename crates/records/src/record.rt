//! Records: the texts of answers that a run is replayed from.

ghost use Rattle.std.specs.Prelude.{◌≡◌, ◌≢◌, ◌+◌, ◌^◌, ◌<◌, ◌⊎◌, ℕ, List, codes, length, map, ◌∷◌, ◌++◌, IfOk, IfErr, MatchResult, MatchOption};
ghost use Rattle.std.specs.List.{AllByRecursion};
ghost use Rattle.acts.specs.Deed.{Reply, reply_of};
ghost use Rattle.hex.specs.Hex.{IsBytes};
ghost use Rattle.lines.specs.Line.{BeginsWithLine, HasLine, IsArrival, IsLine, arrival_text, newline};
ghost use Rattle.records.specs.Fault.{IsFault, IsLineFault, IsRefused};
ghost use Rattle.records.specs.Record.{AreLines, HasHeader, IsFirstBad, IsRecord, IsTold};
ghost use Rattle.records.specs.declared.record.RecordFault.TheVariants as fault;

use acts::{Answer, NoMemory};
use lines::{cut_arrival, cut_at, read_hex, read_likely, read_other};
use std::alloc::{AllocFailed, Allocator};
use thiserror::Error;

/// The first line of a record, with its newline.
pub(crate) const HEADER: &[u8; 12] = b"rx-record 1\n";

/// Why a text was not read as a record.
#[derive(Clone, Copy, Debug, PartialEq, Eq, Error)]
pub enum RecordFault {
    /// It does not begin with the header line.
    #[error("no record of version 1")]
    Header,
    /// The line of this number, counted from 1 with the header, is the first that is the line of no
    /// answer, or that lacks its newline.
    #[error("line {0} is the line of no answer")]
    Line(u64),
    /// Memory was refused.
    #[error("no memory")]
    NoMemory(NoMemory),
}

impl From<NoMemory> for RecordFault {
    ghost from_gives = { λ refusal result. result ≡ fault.NoMemory refusal };

    fn from(refusal: NoMemory) -> RecordFault {
        RecordFault::NoMemory(refusal)
    }
}

impl<T: Drop> From<AllocFailed<T>> for RecordFault {
    ghost from_gives = { λ _ result. IsRefused result };

    fn from(failed: AllocFailed<T>) -> RecordFault {
        RecordFault::NoMemory(NoMemory::from(failed))
    }
}

/// Reads the record that a text is, of version 1, as answers, in time linear in its length.
pub fn read_record<A: Allocator + Copy>(
    alloc: A,
    text: &[u8],
) -> Result<Vec<Answer<A>, A>, RecordFault>
    ensures read { IfOk result (λ answers. IsRecord (map reply_of answers.items) text.now) }
    // So these answers may be written again.
    ensures told { IfOk result (λ answers. AllByRecursion IsTold (map reply_of answers.items)) }
    ensures fault { IfErr result (λ fault. IsFault text.now fault) }
    // Conversely, the answers of a record are read unless memory is refused.
    ensures record { (replies : List Reply) → IsRecord replies text.now
        → MatchResult result (λ answers. map reply_of answers.items ≡ replies) IsRefused }
    ensures no_header { ¬ HasHeader text.now → result ≡ Err RecordFault.Header }
    ensures bad_line { (n : ℕ) → IsFirstBad text.now n
        → MatchResult result (λ _. ⊥) (λ fault. (fault ≡ RecordFault.Line n) ⊎ IsRefused fault) }
{
    match text.strip_prefix(HEADER) {
        Some(lines) => read_lines(alloc, lines),
        None => Err(RecordFault::Header),
    }
}

/// The answers whose lines a text has; `lines` is what follows the header.
fn read_lines<A: Allocator + Copy>(alloc: A, lines: &[u8]) -> Result<Vec<Answer<A>, A>, RecordFault>
    requires { length lines.now + 12 < 2 ^ 64 }
    ensures read { IfOk result (λ answers. AreLines (map reply_of answers.items) lines.now) }
    ensures fault { IfErr result (λ fault. IsLineFault lines.now fault) }
{
    let mut answers = Vec::new(alloc);
    let mut rest = lines;
    while !rest.is_empty() {
        let Some((answer, after)) = read_first(alloc, rest, 0)? else {
            return Err(RecordFault::Line(answers.len() as u64 + 2));
        };
        answers.push(answer)?;
        rest = after;
    }
    Ok(answers)
}

/// The answer whose line a text begins with, and what follows that line; `None` where it begins
/// with the line of no answer. An arrival of `len` bytes is read fastest.
pub(crate) fn read_first<A: Allocator + Copy>(
    alloc: A,
    text: &[u8],
    len: usize,
) -> Result<Option<(Answer<A>, &[u8])>, NoMemory>
    ensures { IfOk result (λ found. MatchOption found
        (¬ BeginsWithLine text.now)
        (λ first. (line : List ℕ) × IsLine (reply_of first.0) line
        × (text.now ≡ line ++ newline ∷ first.1.now))) }
{
    match text.strip_prefix(b"arrive ") {
        Some(behind) => read_arrival(alloc, behind, len),
        None => Ok(read_short(text)),
    }
}

/// The arrival whose line a text ends that follows its word, and what follows that line. One of
/// `len` bytes is read fastest.
fn read_arrival<A: Allocator + Copy>(
    alloc: A,
    text: &[u8],
    len: usize,
) -> Result<Option<(Answer<A>, &[u8])>, NoMemory>
    ensures { IfOk result (λ found. MatchOption found
        ((n : ℕ) (bytes rest : List ℕ) → n < 2 ^ 64 → IsBytes bytes
        → text.now ≢ arrival_text n bytes ++ newline ∷ rest)
        (λ first. (line : List ℕ) × IsLine (reply_of first.0) (codes "arrive " ++ line)
        × (text.now ≡ line ++ newline ∷ first.1.now))) }
{
    if let Some((id, bytes, rest)) = read_likely(alloc, text, len)? {
        return Ok(Some((Answer::Arrive(id, bytes), rest)));
    }
    let Some((id, digits, rest)) = cut_arrival(text) else {
        return Ok(None);
    };
    let bytes = read_hex(alloc, digits)?;
    Ok(Some((Answer::Arrive(id, bytes), rest)))
}

/// The answer whose line a text begins with, where it is no arrival, and what follows that line.
fn read_short<A: Allocator>(text: &[u8]) -> Option<(Answer<A>, &[u8])>
    ensures { MatchOption result
        ((reply : Reply) (line rest : List ℕ) → IsLine reply line
        → text.now ≡ line ++ newline ∷ rest → IsArrival reply)
        (λ first. (line : List ℕ) × IsLine (reply_of first.0) line
        × (text.now ≡ line ++ newline ∷ first.1.now)) }
{
    let (line, rest) = cut_at(text, b'\n')?;
    let answer = read_other(line)?;
    Some((answer, rest))
}

/// A list of answers that have lines has one text, no two lists have the same text, and a text that
/// has a bad line is the text of no list and has one first bad line.
pub fn one_record()
    ensures some_text { (replies : List Reply)
        → AllByRecursion HasLine replies → (text : List ℕ) × IsRecord replies text }
    ensures one_text { (replies : List Reply) (a b : List ℕ)
        → IsRecord replies a → IsRecord replies b → a ≡ b }
    ensures one_list { (a b : List Reply) (text : List ℕ)
        → IsRecord a text → IsRecord b text → a ≡ b }
    ensures no_bad_line { (replies : List Reply) (text : List ℕ) (n : ℕ)
        → IsRecord replies text → ¬ IsFirstBad text n }
    ensures one_bad_line { (text : List ℕ) (m n : ℕ)
        → IsFirstBad text m → IsFirstBad text n → m ≡ n }
{}

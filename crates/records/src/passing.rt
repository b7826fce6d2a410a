//! Entries that are passed: judged by their lines, without being made.

ghost use Rattle.std.specs.Prelude.{◌≡◌, ◌≢◌, ◌+◌, ◌^◌, ◌<◌, ◌∷◌, ◌++◌, ℕ, List, length, MatchBool, MatchResult, MatchOption};
ghost use Rattle.acts.specs.Deed.{Reply};
ghost use Rattle.acts.specs.declared.row.Row.{Row as WaitRow};
ghost use Rattle.hex.specs.Hex.{IsBytes};
ghost use Rattle.lines.specs.Line.{BeginsWithLine, IsArrival, IsLine, arrival_text, newline};
ghost use Rattle.lines.specs.Rows.{AreRows, BeginsWithWait, IsWait};
ghost use Rattle.records.specs.Entry.{AreLinesOf, Note, lines_of};
ghost use Rattle.records.specs.Fault.{IsNoteFault};

use crate::record::RecordFault;
use lines::{cut_arrival, cut_at, is_other, read_first_row};

/// Passes the entry that a text begins with, which is not empty: how many lines it has, and the
/// text after it. `line` is the number of the first line, for faults. It answers as `read_entry`
/// does, but takes no memory.
pub fn pass_entry(text: &[u8], line: u64) -> Result<(u64, &[u8]), RecordFault>
    requires some { 0 < length text.now }
    requires line { line + 1 < 2 ^ 64 }
    ensures { MatchResult result
        (λ passed. (note : Note) × (front : List ℕ)
        × AreLinesOf note.rows note.reply front × (passed.0 ≡ lines_of note.rows)
        × (text.now ≡ front ++ passed.1.now))
        (λ fault. IsNoteFault line text.now fault) }
{
    let Some(behind) = pass_wait(text) else {
        let Some(rest) = pass_first(text) else {
            return Err(RecordFault::Line(line));
        };
        return Ok((1, rest));
    };
    let Some(rest) = pass_first(behind) else {
        return Err(RecordFault::Line(line + 1));
    };
    Ok((2, rest))
}

/// What follows the line of a wait that a text begins with; `None` where it begins with the line
/// of no wait.
fn pass_wait(text: &[u8]) -> Option<&[u8]>
    ensures { MatchOption result
        (¬ BeginsWithWait text.now)
        (λ rest. (rows : List WaitRow) × (line : List ℕ) × IsWait rows line
        × (text.now ≡ line ++ newline ∷ rest.now)) }
{
    let Some(behind) = text.strip_prefix(b"wait") else {
        return None;
    };
    let Some((line, rest)) = cut_at(behind, b'\n') else {
        return None;
    };
    if has_rows(line) { Some(rest) } else { None }
}

/// Whether this text spells rows, each after a blank.
fn has_rows(text: &[u8]) -> bool
    ensures { MatchBool result
        ((rows : List WaitRow) × AreRows rows text.now)
        ((rows : List WaitRow) → ¬ AreRows rows text.now) }
{
    let mut rest = text;
    while !rest.is_empty() {
        let Some((_row, after)) = read_first_row(rest) else {
            return false;
        };
        rest = after;
    }
    true
}

/// What follows the line of an answer that a text begins with; `None` where it begins with the
/// line of no answer.
fn pass_first(text: &[u8]) -> Option<&[u8]>
    ensures { MatchOption result
        (¬ BeginsWithLine text.now)
        (λ rest. (reply : Reply) × (line : List ℕ) × IsLine reply line
        × (text.now ≡ line ++ newline ∷ rest.now)) }
{
    match text.strip_prefix(b"arrive ") {
        Some(behind) => pass_arrival(behind),
        None => pass_other(text),
    }
}

/// What follows the line of an arrival that a text ends which follows its word.
fn pass_arrival(text: &[u8]) -> Option<&[u8]>
    ensures { MatchOption result
        ((n : ℕ) (bytes rest : List ℕ) → n < 2 ^ 64 → IsBytes bytes
        → text.now ≢ arrival_text n bytes ++ newline ∷ rest)
        (λ rest. (n : ℕ) × (bytes : List ℕ) × (n < 2 ^ 64) × IsBytes bytes
        × (text.now ≡ arrival_text n bytes ++ newline ∷ rest.now)) }
{
    let (_id, _digits, rest) = cut_arrival(text)?;
    Some(rest)
}

/// What follows the line of an answer that a text begins with, where it is no arrival.
fn pass_other(text: &[u8]) -> Option<&[u8]>
    ensures { MatchOption result
        ((reply : Reply) (line rest : List ℕ) → IsLine reply line
        → text.now ≡ line ++ newline ∷ rest → IsArrival reply)
        (λ rest. (reply : Reply) × (line : List ℕ) × IsLine reply line
        × (text.now ≡ line ++ newline ∷ rest.now)) }
{
    let (line, rest) = cut_at(text, b'\n')?;
    if is_other(line) { Some(rest) } else { None }
}

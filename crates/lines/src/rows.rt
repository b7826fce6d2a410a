//! The rows of waits, as records spell them.

ghost use Rattle.std.specs.Prelude.{◌≡◌, ◌≢◌, ◌≤◌, ◌<◌, ◌^◌, ◌∷◌, ◌++◌, ◌↔◌, ℕ, List, codes, decimal, MatchBool, MatchOption, IfOk, IfSome, IfNone, IsTrue};
ghost use Rattle.std.specs.List.{AllByRecursion};
ghost use Rattle.acts.specs.declared.row.Row.{Row as WaitRow};
ghost use Rattle.lines.specs.Cut.{StartsAt};
ghost use Rattle.lines.specs.Line.{newline};
ghost use Rattle.lines.specs.Numerals.{EndsNumber};
ghost use Rattle.lines.specs.Rows.{AreRows, BeginsWithWait, IsRow, IsWait, row_text};
ghost use Rattle.lines.specs.Rows as spec;

use crate::cut::cut_at;
use crate::numbers::{cut_decimal, cut_id};
use acts::{Id, NoMemory, Row};
use std::alloc::Allocator;

/// The greatest size of a match buffer in bytes (expect(1), match_max).
const GREATEST_SIZE: u64 = 1_000_000;

/// The rows of the wait whose line a text begins with, and what follows that line; `None` where it
/// begins with the line of no wait. The only error is refused memory.
pub fn read_wait<A: Allocator>(
    alloc: A,
    text: &[u8],
) -> Result<Option<(Vec<Row, A>, &[u8])>, NoMemory>
    ensures { IfOk result (λ found. MatchOption found
        (¬ BeginsWithWait text.now)
        (λ first. (line : List ℕ) × IsWait first.0.items line
        × (text.now ≡ line ++ newline ∷ first.1.now))) }
{
    // An answer's line, which may be long, is not searched for its end here.
    let Some(behind) = text.strip_prefix(b"wait") else {
        return Ok(None);
    };
    let Some((line, rest)) = cut_at(behind, b'\n') else {
        return Ok(None);
    };
    match read_rows(alloc, line)? {
        Some(rows) => Ok(Some((rows, rest))),
        None => Ok(None),
    }
}

/// The rows that this text spells, each after a blank; `None` where it is not a text of rows.
fn read_rows<A: Allocator>(alloc: A, text: &[u8]) -> Result<Option<Vec<Row, A>>, NoMemory>
    ensures { IfOk result (λ found. MatchOption found
        ((rows : List WaitRow) → ¬ AreRows rows text.now)
        (λ rows. AreRows rows.items text.now)) }
{
    let mut rows = Vec::new(alloc);
    let mut rest = text;
    while !rest.is_empty() {
        let Some((row, after)) = read_first_row(rest) else {
            return Ok(None);
        };
        rows.push(row)?;
        rest = after;
    }
    Ok(Some(rows))
}

/// The row that a text begins with after a blank, and what follows: nothing or another blank.
/// `None` where it begins with no such row.
pub fn read_first_row(text: &[u8]) -> Option<(Row, &[u8])>
    ensures row { IfSome result (λ first. IsRow first.0 × StartsAt 32 first.1.now
        × (text.now ≡ 32 ∷ (row_text first.0 ++ first.1.now))) }
    ensures none { IfNone result ((row : WaitRow) (rest : List ℕ) → IsRow row → StartsAt 32 rest
        → text.now ≢ 32 ∷ (row_text row ++ rest)) }
{
    let behind = text.strip_prefix(b" ")?;
    let (row, rest) = cut_row(behind)?;
    if is_cut(rest) {
        Some((row, rest))
    } else {
        None
    }
}

/// The row that a text begins with, and what follows its last digit.
fn cut_row(text: &[u8]) -> Option<(Row, &[u8])>
    ensures row { IfSome result (λ parts. IsRow parts.0 × EndsNumber parts.1.now
        × (text.now ≡ row_text parts.0 ++ parts.1.now)) }
    ensures none { IfNone result ((row : WaitRow) (rest : List ℕ) → IsRow row → EndsNumber rest
        → text.now ≢ row_text row ++ rest) }
{
    let (id, sizes) = cut_id(text)?;
    let (held, behind) = cut_size(sizes)?;
    let (max, rest) = cut_size(behind)?;
    let row = row_of(id, held, max)?;
    Some((row, rest))
}

/// The number after the colon that a text begins with, and what follows its last digit.
fn cut_size(text: &[u8]) -> Option<(u64, &[u8])>
    ensures spelled { IfSome result (λ parts. (parts.0 < 2 ^ 64)
        × (text.now ≡ 58 ∷ (decimal parts.0 ++ parts.1.now)) × EndsNumber parts.1.now) }
    ensures none { IfNone result ((n : ℕ) (rest : List ℕ) → n < 2 ^ 64 → EndsNumber rest
        → text.now ≢ 58 ∷ (decimal n ++ rest)) }
{
    let digits = text.strip_prefix(b":")?;
    cut_decimal(digits)
}

/// Whether a text is empty or begins with a blank.
fn is_cut(text: &[u8]) -> bool
    ensures { MatchBool result (StartsAt 32 text.now) (¬ StartsAt 32 text.now) }
{
    text.is_empty() || text[0] == b' '
}

/// The row of an id whose buffer holds `held` bytes and may hold `max`; `None` where these sizes
/// are out of range.
fn row_of(id: Id, held: u64, max: u64) -> Option<Row>
    ensures row { IfSome result (λ row. IsRow row
        × (row.id ≡ id) × (row.held ≡ held) × (row.max ≡ max)) }
    ensures none { IfNone result (1 ≤ max → max ≤ 1000000 → held ≤ max → ⊥) }
{
    if max < 1 || max > GREATEST_SIZE || max < held {
        return None;
    }
    Some(Row {
        id,
        held: held as u32,
        max: max as u32,
        want: wanted(held as u32, max as u32),
    })
}

/// How many bytes are wanted for a buffer that holds `held` bytes and may hold `max`.
fn wanted(held: u32, max: u32) -> u32
    requires held { held ≤ max }
    requires max { max ≤ 1000000 }
    ensures { result ≡ spec.wanted held max }
{
    if max - held == 0 {
        (max + 1) / 2
    } else {
        max - held
    }
}

/// Whether a record can state these rows.
pub fn are_rows(rows: &[Row]) -> bool
    ensures { IsTrue result ↔ AllByRecursion IsRow rows.now }
{
    for row in rows {
        if !is_row(row) {
            return false;
        }
    }
    true
}

/// Whether a record can state this row: its sizes are in range, and `want` follows from them.
fn is_row(row: &Row) -> bool
    ensures { IsTrue result ↔ IsRow row.now }
{
    row_of(row.id, row.held as u64, row.max as u64) == Some(*row)
}

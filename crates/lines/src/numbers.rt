//! Numbers in decimal digits, as records spell them.

ghost use Rattle.std.specs.Prelude.{◌≡◌, ◌≢◌, ◌+◌, ◌^◌, ◌<◌, ◌≤◌, ◌++◌, ℕ, List, decimal, drop, length, slice_index, take, true, IfSome, IfNone, MatchBool, MatchOption};
ghost use Rattle.std.specs.List.{list_all};
ghost use Rattle.acts.specs.Id.{id_text};
ghost use Rattle.lines.specs.Numerals.{EndsNumber, is_numeral};

use acts::{Id, decimal};

/// Any digit may follow a number that is at most this, and the number stays below 2^64.
const MOST: u64 = u64::MAX / 10 - 1;

/// The number that a text spells in decimal digits without leading zeros, where it is below 2^64.
pub fn read_decimal(text: &[u8]) -> Option<u64>
    ensures spelled { IfSome result (λ n. text.now ≡ decimal n) }
    ensures none { IfNone result ((n : ℕ) → n < 2 ^ 64 → text.now ≢ decimal n) }
{
    let (number, rest) = cut_decimal(text)?;
    if rest.is_empty() { Some(number) } else { None }
}

/// The id that a text spells; `None` for any other text.
pub fn read_id(text: &[u8]) -> Option<Id>
    ensures spelled { IfSome result (λ id. text.now ≡ id_text id.0) }
    ensures below { IfSome result (λ id. id.0 < 2 ^ 64) }
    ensures none { IfNone result ((n : ℕ) → n < 2 ^ 64 → text.now ≢ id_text n) }
{
    let digits = text.strip_prefix(b"exp")?;
    let number = read_decimal(digits)?;
    Some(Id(number))
}

/// The id that a text begins with, and what follows its last digit.
pub fn cut_id(text: &[u8]) -> Option<(Id, &[u8])>
    ensures spelled { IfSome result (λ parts. (parts.0.0 < 2 ^ 64)
        × (text.now ≡ id_text parts.0.0 ++ parts.1.now) × EndsNumber parts.1.now) }
    ensures none { IfNone result ((n : ℕ) (rest : List ℕ) → n < 2 ^ 64 → EndsNumber rest
        → text.now ≢ id_text n ++ rest) }
{
    let digits = text.strip_prefix(b"exp")?;
    let (number, rest) = cut_decimal(digits)?;
    Some((Id(number), rest))
}

/// The number that the digits at the front of a text spell, as `read_decimal`, and what follows the
/// last of them.
pub fn cut_decimal(text: &[u8]) -> Option<(u64, &[u8])>
    ensures spelled { IfSome result (λ parts. (parts.0 < 2 ^ 64)
        × (text.now ≡ decimal parts.0 ++ parts.1.now) × EndsNumber parts.1.now) }
    ensures none { IfNone result ((n : ℕ) (rest : List ℕ) → n < 2 ^ 64 → EndsNumber rest
        → text.now ≢ decimal n ++ rest) }
{
    match cut_short(text) {
        Some(parts) => Some(parts),
        None => cut_any(text),
    }
}

/// The same, one digit after the other, as long as the number stays small. `None` says nothing of
/// the text.
fn cut_short(text: &[u8]) -> Option<(u64, &[u8])>
    ensures { IfSome result (λ parts. (parts.0 < 2 ^ 64)
        × (text.now ≡ decimal parts.0 ++ parts.1.now) × EndsNumber parts.1.now) }
{
    let mut number = 0;
    let mut place = 0;
    while let Some(digit) = digit_at(text, place) {
        if MOST < number || is_behind_zero(number, place) {
            return None;
        }
        number = 10 * number + digit as u64;
        place += 1;
    }
    if place == 0 {
        None
    } else {
        Some((number, &text[place..]))
    }
}

/// The same, by all digits at the front.
fn cut_any(text: &[u8]) -> Option<(u64, &[u8])>
    ensures spelled { IfSome result (λ parts. (parts.0 < 2 ^ 64)
        × (text.now ≡ decimal parts.0 ++ parts.1.now) × EndsNumber parts.1.now) }
    ensures none { IfNone result ((n : ℕ) (rest : List ℕ) → n < 2 ^ 64 → EndsNumber rest
        → text.now ≢ decimal n ++ rest) }
{
    let (digits, rest) = text.split_at(count_numerals(text));
    let number = decimal::read_decimal(digits)?;
    Some((number, rest))
}

/// How many decimal digits a text begins with.
fn count_numerals(text: &[u8]) -> usize
    ensures within { result ≤ length text.now }
    ensures numerals { list_all is_numeral (take result text.now) ≡ true }
    ensures ends { EndsNumber (drop result text.now) }
{
    let mut count = 0;
    while digit_at(text, count).is_some() {
        count += 1;
    }
    count
}

/// The value of the decimal digit at a place of a text; `None` where none stands there.
fn digit_at(text: &[u8], place: usize) -> Option<u8>
    ensures { MatchOption result (EndsNumber (drop place text.now))
        (λ digit. (digit < 10) × (place < length text.now)
        × (slice_index text.now place ≡ 48 + digit)) }
{
    let digit = text.get(place)?.wrapping_sub(b'0');
    if digit < 10 { Some(digit) } else { None }
}

/// Whether the digit at this place stands behind a zero, where those before it spell this number.
fn is_behind_zero(number: u64, place: usize) -> bool
    ensures { MatchBool result ((number ≡ 0) × (0 < place)) (0 < place → number ≢ 0) }
{
    number == 0 && 0 < place
}

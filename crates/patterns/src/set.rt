//! The bytes of a set.
ghost use Rattle.std.specs.Prelude.{◌≡◌, ℕ, ◌<◌, ◌∷◌, [], ◌||◌, length, slice_index_or, false, MatchOption};
ghost use Rattle.patterns.specs.Glob.{ranges, is_in_ranges, is_within};

/// The table of the bytes that the set with this text holds.
pub fn read_set(text: &[u8]) -> [bool; 256]
    ensures { (b : ℕ) → b < 256 → slice_index_or result b false ≡ is_in_ranges (ranges text.now) b }
{
    let mut table = no_bytes();
    let mut rest = text;
    while let Some((one, other, behind)) = next_range(rest) {
        mark(&mut table, one, other);
        rest = behind;
    }
    table
}

/// A table that marks no byte.
fn no_bytes() -> [bool; 256]
    ensures { (b : ℕ) → slice_index_or result b false ≡ false }
{
    [false; 256]
}

/// The ends of the range at the beginning of a set's text, and what stands after it.
fn next_range(text: &[u8]) -> Option<(u8, u8, &[u8])>
    ensures range { MatchOption result
        (text.now ≡ [])
        (λ read. ranges text.now ≡ (read.0, read.1) ∷ ranges read.2.now) }
    ensures shorter { MatchOption result
        (text.now ≡ [])
        (λ read. length read.2.now < length text.now) }
{
    match text {
        [] => None,
        [one, b'-', other, behind @ ..] => Some((*one, *other, behind)),
        [byte, behind @ ..] => Some((*byte, *byte, behind)),
    }
}

/// Marks the bytes from one end of a range to the other. The ends may stand in either order.
fn mark(table: &mut [bool; 256], one: u8, other: u8)
    ensures { (b : ℕ) → b < 256 → slice_index_or table.new b false ≡
        (slice_index_or table.old b false || is_within b (one, other)) }
{
    let low = one.min(other) as usize;
    let high = one.max(other) as usize;
    for byte in low..high + 1 {
        table[byte] = true;
    }
}

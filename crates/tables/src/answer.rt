//! Answers as texts, and what the fields of rows say.

use memory::NoMemory;
use std::alloc::Allocator;
use std::fmt::Display;

/// Writes bytes between angles.
pub fn push_angled<A: Allocator>(answer: &mut Vec<u8, A>, bytes: &[u8]) -> Result<(), NoMemory> {
    answer.push(b'<')?;
    answer.extend_from_slice(bytes)?;
    answer.push(b'>')?;
    Ok(())
}

/// Writes a value as it is displayed.
pub fn push_shown<A: Allocator + Copy, D: Display + Drop>(
    answer: &mut Vec<u8, A>,
    value: D,
) -> Result<(), NoMemory> {
    let text = format!(in *answer.allocator(); "{value}")?;
    answer.extend_from_slice(text.as_bytes())?;
    Ok(())
}

/// The name that a field is: the field as a text, or an empty name where it is none.
pub fn name(field: &[u8]) -> &str {
    std::str::from_utf8(field).unwrap_or("")
}

/// The number that a field spells, or 0.
pub fn number(field: &[u8]) -> u64 {
    match std::str::from_utf8(field) {
        Ok(text) => text.parse::<u64>().unwrap_or(0),
        Err(_) => 0,
    }
}

/// A text, repeated the given number of times.
pub fn repeated<A: Allocator>(alloc: A, text: &[u8], times: u64) -> Result<Vec<u8, A>, NoMemory> {
    let mut all = Vec::new(alloc);
    for _ in 0..times {
        all.extend_from_slice(text)?;
    }
    Ok(all)
}

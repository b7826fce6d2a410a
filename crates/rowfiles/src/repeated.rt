//! Repetitions in a line.

use std::alloc::{AllocError, Global};

/// A line in which each `<<N TEXT>>` is written out: the text, N times.
pub fn repeated(alloc: Global, line: &str) -> Result<String, AllocError> {
    let mut text = String::new(alloc);
    let mut parts = line.split("<<");
    text.push_str(parts.next().unwrap_or(""))?;
    for part in parts {
        push_part(&mut text, part)?;
    }
    Ok(text)
}

/// Writes the part of a line after a `<<`: its repetition written out, or else the part as it is.
fn push_part(text: &mut String, part: &str) -> Result<(), AllocError> {
    let Some((times, unit, rest)) = repetition(part) else {
        text.push_str("<<")?;
        return text.push_str(part);
    };
    for _ in 0..times {
        text.push_str(unit)?;
    }
    text.push_str(rest)
}

/// How often a text is repeated, that text, and what follows the repetition.
fn repetition(part: &str) -> Option<(u64, &str, &str)> {
    let (inside, rest) = part.split_once(">>")?;
    let (times, unit) = inside.split_once(' ')?;
    match times.parse::<u64>() {
        Ok(times) => Some((times, unit, rest)),
        Err(_) => None,
    }
}

//! The words of a command, as they stand in the script.

use crate::bounds::command_end;
use acts::NoMemory;
use memchr::memchr;
use std::alloc::Allocator;

/// How many bytes of a command are told at most.
const MOST_TOLD: usize = 60;

/// Writes a command as it stands in the script, with what stands between it and the next one: its
/// first line, and two points where it goes on.
///
/// # Errors
/// `NoMemory`; a beginning of it may then have been written.
pub(crate) fn push_command<A: Allocator + Copy>(
    out: &mut Vec<u8, A>,
    text: &[u8],
) -> Result<(), NoMemory> {
    let whole = without_comment(*out.allocator(), trimmed(text))?;
    let line = first_line(whole);
    let told = line.get(..MOST_TOLD).unwrap_or(line);
    out.extend_from_slice(told)?;
    let rest = whole.get(line.len()..).unwrap_or(&[]);
    if told.len() < line.len() || !is_comment(rest) {
        out.extend_from_slice(b" ..")?;
    }
    Ok(())
}

/// A command without a comment after it in its first line.
fn without_comment<A: Allocator + Copy>(alloc: A, text: &[u8]) -> Result<&[u8], NoMemory> {
    if memchr(b'#', first_line(text)).is_none() {
        return Ok(text);
    }
    let end = command_end(alloc, text, 0)?;
    Ok(trimmed(text.get(..end).unwrap_or(text)))
}

/// Whether a text has nothing but empty lines and comments, as may stand between a command and the
/// next one.
fn is_comment(text: &[u8]) -> bool {
    text.split(|byte| *byte == b'\n')
        .all(|line| matches!(first_sign(line), None | Some(b'#')))
}

/// The first byte of a line that is not white.
fn first_sign(line: &[u8]) -> Option<u8> {
    line.iter()
        .copied()
        .find(|byte| !matches!(byte, b' ' | b'\t' | b'\r'))
}

/// A text without the white bytes and semicolons at its end.
fn trimmed(text: &[u8]) -> &[u8] {
    match text.iter().rposition(|byte| !is_end(*byte)) {
        Some(last) => text.get(..=last).unwrap_or(text),
        None => &[],
    }
}

/// Whether a byte may stand after a command that belongs to none.
fn is_end(byte: u8) -> bool {
    matches!(byte, b' ' | b'\t' | b'\n' | b'\r' | b';')
}

/// The text up to its first newline.
fn first_line(text: &[u8]) -> &[u8] {
    match text.iter().position(|byte| *byte == b'\n') {
        Some(end) => text.get(..end).unwrap_or(text),
        None => text,
    }
}

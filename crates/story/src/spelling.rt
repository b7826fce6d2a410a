//! Texts as Tcl reads them back, in double quotes (Tcl(n), rules 4 and 9).

ghost use Rattle.std.specs.Prelude.{◌≡◌, ◌++◌, OnOk};
ghost use Rattle.story.specs.Spelling.{is_printable, name_of, numbered, shortened, spelled, spelled_byte};

use acts::decimal::push_decimal;
use memory::NoMemory;
use std::alloc::Allocator;

/// The digits of a byte's number.
const DIGITS: &[u8] = b"0123456789abcdef";

/// Writes a text as Tcl reads it back, in double quotes: printable ASCII as it is, `\n`, `\r` and
/// `\t`, other bytes by their numbers as in `\x00`, and `"`, `\`, `$` and `[` after a backslash.
///
/// After an `Err` a beginning of it may have been written.
pub fn push_spelled<A: Allocator>(out: &mut Vec<u8, A>, text: &[u8]) -> Result<(), NoMemory>
    ensures { OnOk result (out.new.items ≡ out.old.items ++ spelled text.now) }
{
    out.push(b'"')?;
    for byte in text {
        push_byte(out, *byte)?;
    }
    out.push(b'"')?;
    Ok(())
}

/// Writes a text as [`push_spelled`] does, and one of more than `most` bytes by its first and its
/// last bytes and its length, as in `"first" .. "last" (4096 bytes)`: three quarters of `most`
/// bytes, and one quarter.
///
/// After an `Err` a beginning of it may have been written.
pub fn push_shortened<A: Allocator>(
    out: &mut Vec<u8, A>,
    text: &[u8],
    most: usize,
) -> Result<(), NoMemory>
    ensures { OnOk result (out.new.items ≡ out.old.items ++ shortened most text.now) }
{
    if text.len() <= most {
        return push_spelled(out, text);
    }
    let last = most / 4;
    push_spelled(out, &text[..most - last])?;
    out.extend_from_slice(b" .. ")?;
    push_spelled(out, &text[text.len() - last..])?;
    out.extend_from_slice(b" (")?;
    push_decimal(out, text.len() as u64)?;
    out.extend_from_slice(b" bytes)")?;
    Ok(())
}

/// Writes the spelling of a byte within double quotes.
fn push_byte<A: Allocator>(out: &mut Vec<u8, A>, byte: u8) -> Result<(), NoMemory>
    ensures { OnOk result (out.new.items ≡ out.old.items ++ spelled_byte byte) }
{
    if let Some(name) = name_of(byte) {
        out.push(b'\\')?;
        out.push(name)?;
    } else if is_printable(byte) {
        out.push(byte)?;
    } else {
        push_number(out, byte)?;
    }
    Ok(())
}

/// What names a byte after a backslash, where something does: a letter, or the byte itself.
fn name_of(byte: u8) -> Option<u8>
    ensures { result ≡ name_of byte }
{
    match byte {
        b'\n' => Some(b'n'),
        b'\r' => Some(b'r'),
        b'\t' => Some(b't'),
        b'"' | b'\\' | b'$' | b'[' => Some(byte),
        _ => None,
    }
}

/// Whether ASCII prints a byte.
fn is_printable(byte: u8) -> bool
    ensures { result ≡ is_printable byte }
{
    matches!(byte, b' '..=b'~')
}

/// Writes a byte by its number, in two hexadecimal digits, which are as many as Tcl reads.
fn push_number<A: Allocator>(out: &mut Vec<u8, A>, byte: u8) -> Result<(), NoMemory>
    ensures { OnOk result (out.new.items ≡ out.old.items ++ numbered byte) }
{
    out.extend_from_slice(b"\\x")?;
    out.push(DIGITS[(byte / 16) as usize])?;
    out.push(DIGITS[(byte % 16) as usize])?;
    Ok(())
}

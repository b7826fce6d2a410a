//! The values of words in braces.

ghost use Rattle.std.specs.Prelude.{IfOk};
ghost use Rattle.tclparse.specs.Braces.{IsValue};

use memory::NoMemory;
use std::alloc::Allocator;
use tcltext::escape::skip_blanks;

/// The value of a word in braces that has this text between its braces.
pub(crate) fn fold_lines<A: Allocator>(alloc: A, text: &[u8]) -> Result<Vec<u8, A>, NoMemory>
    ensures { IfOk result (λ v. IsValue v.items text.now) }
{
    let mut value = Vec::with_capacity(alloc, text.len())?;
    let mut bytes = text;
    while let [c, rest @ ..] = bytes {
        match rest {
            [d, behind @ ..] if *c == b'\\' => {
                if *d == b'\n' {
                    value.push(b' ')?;
                    bytes = skip_blanks(behind);
                } else {
                    value.push(*c)?;
                    value.push(*d)?;
                    bytes = behind;
                }
            }
            _ => {
                value.push(*c)?;
                bytes = rest;
            }
        }
    }
    Ok(value)
}

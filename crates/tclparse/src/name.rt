//! The names of variables, as commands receive them and as they stand between braces.

ghost use Rattle.std.specs.Prelude.{◌≡◌, ◌≤◌, length, None, Some, IfOk, IfErr};
ghost use Rattle.tclparse.specs.Variable.{until, from, holds_colons, begins_with_colons, ends_with, element_of, named};
ghost use Rattle.tclparse.specs.Seen.{element_seen, name_seen};
ghost use Rattle.tclparse.specs.declared.fault.Fault.TheVariants.{BadVariable};

use crate::context::begins_with;
use crate::fault::Fault;

/// A variable's name, or an array's with the index of its element.
#[derive(Clone, Copy, Debug, PartialEq, Eq)]
pub struct Name<'a> {
    /// The name of the variable or of the array.
    pub name: &'a [u8],
    /// The element's index, if the name is one of an element.
    pub index: Option<&'a [u8]>,
}

/// Whether the text begins with `::`, the mark of a namespace.
pub(crate) fn begins_with_colons(text: &[u8]) -> bool
    ensures { result ≡ begins_with_colons text.now }
{
    match text {
        [c, rest @ ..] => *c == b':' && begins_with(b':', rest),
        [] => false,
    }
}

/// Whether the name holds `::`, the mark of a namespace.
pub fn holds_colons(name: &[u8]) -> bool
    ensures { result ≡ holds_colons name.now }
{
    let mut bytes = name;
    while let [_, rest @ ..] = bytes {
        if begins_with_colons(bytes) {
            return true;
        }
        bytes = rest;
    }
    false
}

fn ends_with(byte: u8, text: &[u8]) -> bool
    ensures { result ≡ ends_with byte text.now }
{
    match text.last() {
        Some(c) => *c == byte,
        None => false,
    }
}

/// The bytes before the first occurrence of this byte, and the text from that byte on; all bytes
/// and the empty text where the byte does not occur.
pub(crate) fn split_before(byte: u8, text: &[u8]) -> (&[u8], &[u8])
    ensures front { result.0.now ≡ until byte text.now }
    ensures rest { result.1.now ≡ from byte text.now }
    ensures shorter { length result.1.now ≤ length text.now }
{
    let mut len = 0;
    while len < text.len() && text[len] != byte {
        len += 1;
    }
    text.split_at(len)
}

// The array and the index of a name of the form `a(i)`.
fn split_element(name: &[u8]) -> Option<(&[u8], &[u8])>
    ensures { element_seen result ≡ element_of name.now }
{
    if !ends_with(b')', name) {
        return None;
    }
    let (array, rest) = split_before(b'(', name);
    match rest {
        [_, index @ ..] => {
            if ends_with(b')', index) {
                Some((array, &index[..index.len() - 1]))
            } else {
                None
            }
        }
        [] => None,
    }
}

/// Reads a name as commands receive it, as in `set a(i) v`; `${a(i)}` names the same (Tcl(n), rule
/// 8).
///
/// The word is an element's name where a `(` stands in it, not first, and a `)` last; else it is a
/// variable's, whatever its bytes, and even if it is empty. `Err` is `Fault::BadVariable`: the word
/// holds `::`, or has the form `(i)`. Takes no memory.
pub fn variable_name(word: &[u8]) -> Result<Name<'_>, Fault>
    ensures name { IfOk result (λ n. named word.now ≡ Some (name_seen n)) }
    ensures fault { IfErr result (λ f. (f ≡ BadVariable) × (named word.now ≡ None)) }
{
    if holds_colons(word) {
        return Err(Fault::BadVariable);
    }
    match split_element(word) {
        Some((array, index)) => {
            if array.is_empty() {
                Err(Fault::BadVariable)
            } else {
                Ok(Name {
                    name: array,
                    index: Some(index),
                })
            }
        }
        None => Ok(Name {
            name: word,
            index: None,
        }),
    }
}

//! Writing a list as a text.

ghost use Rattle.std.specs.Prelude.{◌≡◌, [], ◌∷◌, ◌++◌, if◌then◌else◌, IfOk, OnOk};
ghost use Rattle.tcltext.specs.Canonical.{canonical, joined, written, is_special, is_comment, is_bare, is_braceable, escape_name, escaped_bytes, pairs_up};
ghost use Rattle.std.specs.List.{list_any};
ghost use Rattle.tcltext.specs.Elements.{IsList};
ghost use Rattle.tcltext.specs.Seen.{texts};

use crate::value::Value;
use crate::white::is_white;
use memory::NoMemory;
use std::alloc::Allocator;

/// The canonical text of a list: its elements with a blank between them, each bare where it can be,
/// else in braces where it can be, else with backslashes (list(n)).
///
/// Takes time and memory linear in the length of the text.
pub fn join_list<A: Allocator>(alloc: A, list: &[Vec<u8, A>]) -> Result<Vec<u8, A>, NoMemory>
    ensures canonical { IfOk result (λ t. t.items ≡ canonical (texts list.now)) }
    ensures reads_back { IfOk result (λ t. IsList (texts list.now) t.items) }
{
    let mut text = Vec::new(alloc);
    let mut first = true;
    for element in list {
        push_next(&mut text, first, element)?;
        first = false;
    }
    Ok(text)
}

/// The canonical text of a list of values, as [`join_list`] writes it (list(n)).
pub fn join_values<A: Allocator>(alloc: A, list: &[Value<A>]) -> Result<Vec<u8, A>, NoMemory>
    ensures canonical { IfOk result (λ t. t.items ≡ canonical list.now) }
    ensures reads_back { IfOk result (λ t. IsList list.now t.items) }
{
    let mut text = Vec::new(alloc);
    push_values(&mut text, true, list)?;
    Ok(text)
}

/// Writes elements after a text, each with a blank before it but the very first of the list.
pub(crate) fn push_values<A: Allocator>(
    text: &mut Vec<u8, A>,
    mut first: bool,
    elements: &[Value<A>],
) -> Result<(), NoMemory>
    ensures { OnOk result (text.new.items ≡ text.old.items ++ joined first elements.now) }
{
    for element in elements {
        push_next(text, first, element.as_slice())?;
        first = false;
    }
    Ok(())
}

/// Writes an element after a text, and a blank before it where it is not the first.
pub(crate) fn push_next<A: Allocator>(
    text: &mut Vec<u8, A>,
    first: bool,
    element: &[u8],
) -> Result<(), NoMemory>
    ensures { OnOk result (text.new.items ≡
        text.old.items ++ ((if first then [] else 32 ∷ []) ++ written first element.now)) }
{
    if !first {
        text.push(b' ')?;
    }
    push_element(text, first, element)
}

/// Writes the spelling of an element after a text; the blank before it is left to the caller
/// (list(n)).
///
/// `first` says that the element is the list's first, where a `#` may not stand bare. After an
/// `Err` the text may have a part of the spelling.
pub fn push_element<A: Allocator>(
    text: &mut Vec<u8, A>,
    first: bool,
    element: &[u8],
) -> Result<(), NoMemory>
    ensures { OnOk result (text.new.items ≡ text.old.items ++ written first element.now) }
{
    if is_bare(first, element) {
        text.extend_from_slice(element)?;
        return Ok(());
    }
    if is_braceable(element) {
        text.push(b'{')?;
        text.extend_from_slice(element)?;
        text.push(b'}')?;
        return Ok(());
    }
    if is_comment(first, element) {
        text.push(b'\\')?;
    }
    write_escaped(text, element)
}

fn write_escaped<A: Allocator>(text: &mut Vec<u8, A>, element: &[u8]) -> Result<(), NoMemory>
    ensures { OnOk result (text.new.items ≡ text.old.items ++ escaped_bytes element.now) }
{
    for c in element {
        if is_special(*c) {
            text.push(b'\\')?;
            text.push(escape_name(*c))?;
        } else {
            text.push(*c)?;
        }
    }
    Ok(())
}

fn is_special(c: u8) -> bool
    ensures { result ≡ is_special c }
{
    is_white(c) || matches!(c, b';' | b'"' | b'$' | b'[' | b']' | b'{' | b'}' | b'\\')
}

fn is_comment(first: bool, element: &[u8]) -> bool
    ensures { result ≡ is_comment first element.now }
{
    first && matches!(element, [b'#', ..])
}

fn is_bare(first: bool, element: &[u8]) -> bool
    ensures { result ≡ is_bare first element.now }
{
    !element.is_empty() && !is_comment(first, element) && !has_special(element)
}

fn has_special(element: &[u8]) -> bool
    ensures { result ≡ list_any is_special element.now }
{
    element.iter().any(|c| is_special(*c))
}

// Whether an element may stand in braces: it has no backslash, and its braces pair up.
fn is_braceable(element: &[u8]) -> bool
    ensures { result ≡ is_braceable element.now }
{
    !element.contains(&b'\\') && pairs_up(element)
}

fn pairs_up(element: &[u8]) -> bool
    ensures { result ≡ pairs_up 0 element.now }
{
    let mut open = 0usize;
    for c in element {
        if *c == b'{' {
            open += 1;
        } else if *c == b'}' {
            if open == 0 {
                return false;
            }
            open -= 1;
        }
    }
    open == 0
}

// The name of a byte after a backslash.
fn escape_name(c: u8) -> u8
    ensures { result ≡ escape_name c }
{
    match c {
        b'\t' => b't',
        b'\n' => b'n',
        11 => b'v',
        12 => b'f',
        b'\r' => b'r',
        _ => c,
    }
}

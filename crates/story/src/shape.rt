//! The items of a pattern, so that some of them can be sought, or others in their place.

ghost use Rattle.std.specs.Prelude.{◌<◌, ◌≤◌, length, IfSome};

use crate::lens::Lens;
use crate::sought::Style;
use memchr::memchr;
use memory::NoMemory;
use std::alloc::Allocator;
use tcltext::escape;

/// What a backslash in a pattern is read as.
#[derive(Clone, Copy, Debug, PartialEq, Eq)]
pub(crate) enum Backslash {
    /// As a glob has it: the byte after it, whatever that is. In an exact pattern, a backslash.
    Plain,
    /// As Tcl has it in double quotes (Tcl(n), rule 9).
    Escape,
}

/// An item of a pattern (string(n), match).
#[derive(Clone, Copy, Debug)]
pub(crate) enum Item<'a> {
    /// This byte.
    Byte(u8),
    /// Any byte.
    Any,
    /// A byte of the set with this text.
    Set(&'a [u8]),
    /// Any bytes.
    Run,
}

/// Whether a pattern is tied to the window's ends (expect(1), expect).
#[derive(Clone, Copy, Debug, PartialEq, Eq)]
pub(crate) struct Ties {
    pub(crate) begin: bool,
    pub(crate) end: bool,
}

impl Ties {
    pub(crate) const NONE: Ties = Ties {
        begin: false,
        end: false,
    };
}

/// The items of a pattern. A `*` at either end is left out, since it takes whatever is there, and
/// with it the tie to that end.
#[derive(Drop)]
pub(crate) struct Shape<'a, A: Allocator> {
    pub(crate) items: Vec<Item<'a>, A>,
    pub(crate) ties: Ties,
}

impl<'a, A: Allocator + Copy> Shape<'a, A> {
    /// Reads the text of a pattern.
    pub(crate) fn read(
        alloc: A,
        style: Style,
        backslash: Backslash,
        text: &'a [u8],
    ) -> Result<Shape<'a, A>, NoMemory> {
        let (begin, mut rest) = split_caret(style, text);
        let mut shape = Shape {
            items: Vec::new(alloc),
            ties: Ties { begin, end: false },
        };
        while let Some((item, behind)) = next_item(style, backslash, rest) {
            if style == Style::Glob && matches!(rest, [b'$']) {
                shape.ties.end = true;
            } else {
                shape.add(item)?;
            }
            rest = behind;
        }
        shape.drop_last_runs();
        Ok(shape)
    }

    /// Adds an item, unless it is a `*` before all others.
    fn add(&mut self, item: Item<'a>) -> Result<(), NoMemory> {
        if self.items.is_empty() && matches!(item, Item::Run) {
            self.ties.begin = false;
        } else {
            self.items.push(item)?;
        }
        Ok(())
    }

    /// Leaves out each `*` at the end.
    fn drop_last_runs(&mut self) {
        let many = self.items.len();
        let left = without_last_runs(&self.items).len();
        if left < many {
            self.items.truncate(left);
            self.ties.end = false;
        }
    }
}

/// The items without each `*` at their end.
pub(crate) fn without_last_runs<'i, 'a>(items: &'i [Item<'a>]) -> &'i [Item<'a>] {
    let mut left = items;
    while let [before @ .., Item::Run] = left {
        left = before;
    }
    left
}

/// Whether a `^` ties a pattern to the window's beginning, and the pattern's text without it.
fn split_caret<'a>(style: Style, text: &'a [u8]) -> (bool, &'a [u8]) {
    match (style, text) {
        (Style::Glob, [b'^', body @ ..]) => (true, body),
        _ => (false, text),
    }
}

/// The item at the beginning of a pattern's text, and the text after it.
fn next_item<'a>(style: Style, backslash: Backslash, text: &'a [u8]) -> Option<(Item<'a>, &'a [u8])>
    ensures shorter { IfSome result (λ read. length read.1.now < length text.now) }
{
    let (first, rest) = text.split_first()?;
    match (*first, style) {
        (b'\\', _) if backslash == Backslash::Escape => Some(escaped(rest)),
        (b'\\', Style::Glob) => Some(quoted(rest)),
        (b'[', Style::Glob) => Some(set(rest)),
        (b'?', Style::Glob) => Some((Item::Any, rest)),
        (b'*', Style::Glob) => Some((Item::Run, rest)),
        (byte, _) => Some((Item::Byte(byte), rest)),
    }
}

/// What a backslash before this text stands for in double quotes, and the text after that.
fn escaped<'a>(text: &'a [u8]) -> (Item<'a>, &'a [u8])
    ensures shorter { length result.1.now ≤ length text.now }
{
    match escape::read(text) {
        Ok((byte, rest)) => (Item::Byte(byte), rest),
        Err(_) => quoted(text),
    }
}

/// What a backslash before this text stands for in a glob, and the text after that.
fn quoted<'a>(text: &'a [u8]) -> (Item<'a>, &'a [u8])
    ensures shorter { length result.1.now ≤ length text.now }
{
    match text {
        [byte, rest @ ..] => (Item::Byte(*byte), rest),
        [] => (Item::Byte(b'\\'), text),
    }
}

/// The set after a `[`, which the next `]` or the end of the text closes, and the text after it.
fn set<'a>(text: &'a [u8]) -> (Item<'a>, &'a [u8])
    ensures shorter { length result.1.now ≤ length text.now }
{
    match memchr(b']', text) {
        Some(end) => (Item::Set(&text[..end]), &text[end + 1..]),
        None => (Item::Set(text), &[]),
    }
}

/// The text of a glob with these items and ties, as they are looked at.
pub(crate) fn glob_text<A: Allocator>(
    alloc: A,
    items: &[Item<'_>],
    ties: Ties,
    lens: Lens,
) -> Result<Vec<u8, A>, NoMemory> {
    let mut text = Vec::new(alloc);
    if ties.begin {
        text.push(b'^')?;
    }
    for item in items {
        push_item(&mut text, *item, lens)?;
    }
    if ties.end {
        text.push(b'$')?;
    }
    Ok(text)
}

/// Writes an item as a glob has it.
fn push_item<A: Allocator>(
    text: &mut Vec<u8, A>,
    item: Item<'_>,
    lens: Lens,
) -> Result<(), NoMemory> {
    match item {
        Item::Byte(byte) if lens.omits(byte) => Ok(()),
        Item::Byte(byte) => push_literal(text, lens.of_pattern(byte)),
        Item::Any => Ok(text.push(b'?')?),
        Item::Run => Ok(text.push(b'*')?),
        Item::Set(set) => push_set(text, set, lens),
    }
}

/// Writes a byte that stands for itself.
fn push_literal<A: Allocator>(text: &mut Vec<u8, A>, byte: u8) -> Result<(), NoMemory> {
    if matches!(byte, b'*' | b'?' | b'[' | b'\\' | b'^' | b'$') {
        text.push(b'\\')?;
    }
    text.push(byte)?;
    Ok(())
}

/// Writes a set.
fn push_set<A: Allocator>(text: &mut Vec<u8, A>, set: &[u8], lens: Lens) -> Result<(), NoMemory> {
    text.push(b'[')?;
    for byte in set {
        text.push(lens.of_pattern(*byte))?;
    }
    text.push(b']')?;
    Ok(())
}

//! Runs of a glob: parts of its text whose signs take one byte each.

ghost use Rattle.std.specs.Prelude.{◌≡◌, ◌∷◌, IfSome, IsTrue};
ghost use Rattle.searches.specs.Runs.{IsAlone, IsFront, IsSign, IsWithin, is_bare};
ghost use Rattle.patterns.specs.Glob.{begins_in_caret};

use memchr::memchr;

/// A part of a glob's text, and how many bytes it takes.
#[derive(Clone, Copy)]
pub(crate) struct Run<'a> {
    pub(crate) text: &'a [u8],
    pub(crate) size: usize,
}

/// The last run of a glob.
#[derive(Clone, Copy)]
pub(crate) struct LastRun<'a> {
    pub(crate) text: &'a [u8],
    pub(crate) size: usize,
    /// Only `*` stand before and after it.
    pub(crate) is_alone: bool,
}

/// The last part between the `*` of a glob that takes a byte, or the empty one. There is none where
/// the glob may be tied to an end of the window, or where a set or a backslash in it is not closed.
pub(crate) fn last_run(text: &[u8]) -> Option<LastRun<'_>>
    ensures within { IfSome result (λ last. IsWithin text.now last.text.now last.size) }
    ensures alone { IfSome result (λ last. IsTrue last.is_alone →
        IsAlone text.now last.text.now) }
{
    if begins_in_caret(text) {
        return None;
    }
    let (mut run, mut rest) = front_run(text);
    let mut is_alone = true;
    while let Some(more) = after_star(rest) {
        let (next, after) = front_run(more);
        if next.size > 0 {
            is_alone = is_alone && run.size == 0;
            run = next;
        }
        rest = after;
    }
    if !rest.is_empty() {
        return None;
    }
    Some(LastRun {
        text: run.text,
        size: run.size,
        is_alone,
    })
}

/// Whether a glob is tied to the window's beginning (expect(1), expect).
fn begins_in_caret(text: &[u8]) -> bool
    ensures { result ≡ begins_in_caret text.now }
{
    matches!(text, [b'^', ..])
}

/// What stands after a `*`.
fn after_star(text: &[u8]) -> Option<&[u8]>
    ensures { IfSome result (λ after. text.now ≡ 42 ∷ after.now) }
{
    let (first, after) = text.split_first()?;
    match *first {
        b'*' => Some(after),
        _ => None,
    }
}

/// The signs at the front of a text that take one byte each, and what stands after them.
fn front_run(text: &[u8]) -> (Run<'_>, &[u8])
    ensures { IsFront text.now result.0.text.now result.1.now result.0.size }
{
    let mut end = 0;
    let mut size = 0;
    while let Some(more) = one_sign(&text[end..]) {
        end += more;
        size += 1;
    }
    let (text, after) = text.split_at(end);
    (Run { text, size }, after)
}

/// How long the sign at the front of a text is, where it takes one byte (string(n), match).
fn one_sign(text: &[u8]) -> Option<usize>
    ensures { IfSome result (IsSign text.now) }
{
    let (first, rest) = text.split_first()?;
    if is_bare(*first) {
        return Some(1);
    }
    match *first {
        b'\\' => quoted_sign(rest),
        b'[' => match memchr(b']', rest) {
            Some(end) => Some(end + 2),
            None => None,
        },
        _ => None,
    }
}

/// Whether a byte is a sign by itself, and neither a `*` nor a `$` (string(n), match).
fn is_bare(byte: u8) -> bool
    ensures { result ≡ is_bare byte }
{
    !matches!(byte, b'*' | b'$' | b'\\' | b'[')
}

/// How long the sign of a backslash is, by what stands after it.
fn quoted_sign(rest: &[u8]) -> Option<usize>
    ensures { IfSome result (IsSign (92 ∷ rest.now)) }
{
    match rest.split_first() {
        Some(_) => Some(2),
        None => None,
    }
}

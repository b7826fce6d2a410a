//! What is sought first of a pattern, so that a search for it goes on where the last one ended.

ghost use Rattle.std.specs.Prelude.{◌≡◌, ℕ, ◌≤◌, false, drop, length, IfNone, IfOk, IfSome, IsTrue, MatchOption};
ghost use Rattle.searches.specs.Lead.{IsLead, is_all, pattern_by, run_of, sought_by};
ghost use Rattle.searches.specs.Runs.{IsAlone, IsWithin};
ghost use Rattle.patterns.specs.Glob.{exact, glob, plain};
ghost use Rattle.patterns.specs.Match.{IsFound, Sits, SitsNowhere};

use crate::run::{LastRun, last_run};
use crate::style::Style;
use acts::NoMemory;
use patterns::{Found, Pattern, PatternError, Scratch, find_text};
use std::alloc::Allocator;
use tcltext::Value;

/// A run that is sought: a text, in which way it is sought, and whether the letters of the window
/// are folded.
#[derive(Drop)]
pub(crate) struct Key<A: Allocator> {
    style: Style,
    folds: bool,
    text: Value<A>,
}

impl<A: Allocator> Key<A> {
    /// The key of the empty text.
    pub(crate) fn empty() -> Key<A> {
        Key {
            style: Style::Exact,
            folds: false,
            text: Value::empty(),
        }
    }

    /// Whether the run of another key is the same one.
    pub(crate) fn is(&self, other: &Key<A>) -> bool
        ensures { IsTrue result → run_of self.now ≡ run_of other.now }
    {
        self.style == other.style
            && self.folds == other.folds
            && self.text.as_slice() == other.text.as_slice()
    }

    /// The same key once more; its text is not copied.
    ///
    /// # Errors
    /// `NoMemory`, where the text already has as many holders as can be counted.
    pub(crate) fn share(&self) -> Result<Key<A>, NoMemory>
        ensures { IfOk result (λ same. run_of same ≡ run_of self.now) }
    {
        let text = self.text.share()?;
        Ok(Key {
            style: self.style,
            folds: self.folds,
            text,
        })
    }
}

/// How the run of a key is sought.
#[derive(Drop)]
pub(crate) enum Seeker<A: Allocator> {
    /// As the text of the key.
    Text,
    /// As the pattern itself, which is the run.
    Itself,
    /// As the pattern itself, in which nothing but `*` stands beside the run.
    Around,
    /// As a pattern of its own, which is a part of the whole one.
    Part(Box<Pattern<A>, A>),
}

/// What is sought first of a pattern: a run that takes as many bytes wherever it stands, and
/// without which the pattern is found nowhere. So a search that did not find it in a window need
/// not look there again once more bytes follow.
#[derive(Drop)]
pub struct Lead<A: Allocator> {
    key: Key<A>,
    size: usize,
    seeker: Seeker<A>,
}

impl<A: Allocator> Lead<A> {
    /// What a slot remembers the run by.
    pub(crate) fn key(&self) -> &Key<A>
        ensures { result.now ≡ self.now.key }
    {
        &self.key
    }

    /// How many bytes the run takes.
    pub(crate) fn size(&self) -> usize
        ensures { result ≡ self.now.size }
    {
        self.size
    }

    /// Whether the run is the whole pattern, so that this is found where the run is.
    pub(crate) fn is_all(&self) -> bool
        ensures { result ≡ is_all self.now.seeker }
    {
        matches!(self.seeker, Seeker::Itself)
    }

    /// Finds the run in a window, if it is known to stand at no place before `from`. The place is
    /// that of the run where this is the whole pattern. Takes no memory.
    pub(crate) fn find(
        &self,
        pattern: &Pattern<A>,
        window: &[u8],
        from: usize,
        scratch: &mut Scratch<A>,
    ) -> Option<Found>
        requires lead { IsLead pattern.now self.now }
        requires inside { from ≤ length window.now }
        requires room { length window.now ≤ scratch.old }
        requires low { (s e : ℕ) → Sits (run_of self.now.key) window.now s e → from ≤ s }
        ensures found { MatchOption result
            (SitsNowhere (run_of self.now.key) window.now)
            (λ found. IsTrue (is_all self.now.seeker) →
            IsFound (run_of self.now.key) window.now found.start found.end) }
    {
        match &self.seeker {
            Seeker::Text => find_text_from(self.key.text.as_slice(), window, from),
            Seeker::Itself => find_from(pattern, window, from, scratch),
            Seeker::Around => find_behind(pattern, window, from, scratch),
            Seeker::Part(part) => find_from(part, window, from, scratch),
        }
    }
}

impl<A: Allocator + Copy> Lead<A> {
    /// What is sought first of the pattern of a text.
    ///
    /// # Errors
    /// `NoMemory`.
    pub fn of(
        alloc: A,
        style: Style,
        folds: bool,
        text: &[u8],
        pattern: &Pattern<A>,
    ) -> Result<Lead<A>, NoMemory>
        requires { pattern.now ≡ sought_by folds (pattern_by style text.now) }
        ensures lead { IfOk result (IsLead pattern.now) }
    {
        match style {
            Style::Glob => Lead::of_glob(alloc, folds, text, pattern),
            Style::Exact => Lead::of_text(alloc, folds, text, pattern),
        }
    }

    /// An exact pattern itself.
    fn of_text(
        alloc: A,
        folds: bool,
        text: &[u8],
        pattern: &Pattern<A>,
    ) -> Result<Lead<A>, NoMemory>
        requires { pattern.now ≡ sought_by folds (exact text.now) }
        ensures lead { IfOk result (IsLead pattern.now) }
    {
        let value = exact_text(alloc, folds, text, pattern)?;
        Ok(Lead {
            key: Key {
                style: Style::Exact,
                folds,
                text: value,
            },
            size: text.len(),
            seeker: Seeker::Itself,
        })
    }

    /// What is sought first of a glob. Where it needs a text, that text is sought, so that nothing
    /// has to be made.
    fn of_glob(
        alloc: A,
        folds: bool,
        text: &[u8],
        pattern: &Pattern<A>,
    ) -> Result<Lead<A>, NoMemory>
        requires { pattern.now ≡ sought_by folds (glob text.now) }
        ensures lead { IfOk result (IsLead pattern.now) }
    {
        if !pattern.needs().as_slice().is_empty() {
            return Lead::of_needs(pattern);
        }
        let Some(last) = last_run(text) else {
            return Lead::of_needs(pattern);
        };
        if last.is_alone {
            return Lead::of_alone(alloc, folds, text, last, pattern);
        }
        Lead::of_part(alloc, folds, text, last, pattern)
    }

    /// The text that stands in every window in which the pattern is found.
    fn of_needs(pattern: &Pattern<A>) -> Result<Lead<A>, NoMemory>
        ensures lead { IfOk result (IsLead pattern.now) }
    {
        let text = pattern.needs().share()?;
        let size = text.as_slice().len();
        let key = Key {
            style: Style::Exact,
            folds: false,
            text,
        };
        let seeker = Seeker::Text;
        Ok(Lead { key, size, seeker })
    }

    /// The one run of a glob, beside which only `*` stand.
    fn of_alone(
        alloc: A,
        folds: bool,
        text: &[u8],
        last: LastRun<'_>,
        pattern: &Pattern<A>,
    ) -> Result<Lead<A>, NoMemory>
        requires glob { pattern.now ≡ sought_by folds (glob text.now) }
        requires within { IsWithin text.now last.text.now last.size }
        requires alone { IsAlone text.now last.text.now }
        ensures lead { IfOk result (IsLead pattern.now) }
    {
        let value = Value::from_slice(alloc, last.text)?;
        Ok(Lead {
            key: Key {
                style: Style::Glob,
                folds,
                text: value,
            },
            size: last.size,
            seeker: Seeker::Around,
        })
    }

    /// A run of a glob, as a pattern of its own.
    fn of_part(
        alloc: A,
        folds: bool,
        text: &[u8],
        last: LastRun<'_>,
        pattern: &Pattern<A>,
    ) -> Result<Lead<A>, NoMemory>
        requires glob { pattern.now ≡ sought_by folds (glob text.now) }
        requires within { IsWithin text.now last.text.now last.size }
        ensures lead { IfOk result (IsLead pattern.now) }
    {
        let read = run_pattern(alloc, folds, last.text)?;
        let Some(part) = read else {
            return Lead::of_needs(pattern);
        };
        let value = Value::from_slice(alloc, last.text)?;
        let part = Box::new(alloc, part)?;
        Ok(Lead {
            key: Key {
                style: Style::Glob,
                folds,
                text: value,
            },
            size: last.size,
            seeker: Seeker::Part(part),
        })
    }
}

/// A run of a glob as a pattern, if it is not too long for one.
fn run_pattern<A: Allocator + Copy>(
    alloc: A,
    folds: bool,
    text: &[u8],
) -> Result<Option<Pattern<A>>, NoMemory>
    ensures { IfOk result (λ read. IfSome read (λ p. p ≡ sought_by folds (plain text.now))) }
{
    match Pattern::plain(alloc, text) {
        Ok(pattern) if folds => Ok(Some(pattern.fold())),
        Ok(pattern) => Ok(Some(pattern)),
        Err(PatternError::NoMemory(refusal)) => Err(refusal),
        Err(PatternError::TooLong) => Ok(None),
    }
}

/// The text of an exact pattern as a value. It is not copied where the pattern needs a text that
/// is as long, which is just this text.
fn exact_text<A: Allocator + Copy>(
    alloc: A,
    folds: bool,
    text: &[u8],
    pattern: &Pattern<A>,
) -> Result<Value<A>, NoMemory>
    requires { pattern.now ≡ sought_by folds (exact text.now) }
    ensures { IfOk result (λ value. value ≡ text.now) }
{
    let needed = pattern.needs();
    if !folds && needed.as_slice().len() == text.len() {
        return Ok(needed.share()?);
    }
    Ok(Value::from_slice(alloc, text)?)
}

/// Finds a text in a window, if it is known to stand at no place before `from`.
fn find_text_from(text: &[u8], window: &[u8], from: usize) -> Option<Found>
    requires inside { from ≤ length window.now }
    requires low { (s e : ℕ) → Sits (exact text.now) window.now s e → from ≤ s }
    ensures found { MatchOption result
        (SitsNowhere (exact text.now) window.now)
        (λ found. IsFound (exact text.now) window.now found.start found.end) }
{
    match find_text(text, window, from) {
        Some(start) => Some(Found {
            start,
            end: start + text.len(),
        }),
        None => None,
    }
}

/// Finds a pattern that is tied nowhere in a window, if it is known to stand at no place before
/// `from`.
fn find_from<A: Allocator>(
    pattern: &Pattern<A>,
    window: &[u8],
    from: usize,
    scratch: &mut Scratch<A>,
) -> Option<Found>
    requires start { pattern.now.at_start ≡ false }
    requires inside { from ≤ length window.now }
    requires room { length window.now ≤ scratch.old }
    requires low { (s e : ℕ) → Sits pattern.now window.now s e → from ≤ s }
    ensures found { MatchOption result
        (SitsNowhere pattern.now window.now)
        (λ found. IsFound pattern.now window.now found.start found.end) }
{
    let (_, rest) = window.split_at(from);
    match pattern.find(rest, scratch).found {
        Some(found) => Some(Found {
            start: from + found.start,
            end: from + found.end,
        }),
        None => None,
    }
}

/// Finds a pattern in what stands in a window from `from` on.
fn find_behind<A: Allocator>(
    pattern: &Pattern<A>,
    window: &[u8],
    from: usize,
    scratch: &mut Scratch<A>,
) -> Option<Found>
    requires inside { from ≤ length window.now }
    requires room { length window.now ≤ scratch.old }
    ensures { IfNone result (SitsNowhere pattern.now (drop from window.now)) }
{
    let (_, rest) = window.split_at(from);
    pattern.find(rest, scratch).found
}

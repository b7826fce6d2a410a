//! A pattern: a glob, or a text that is sought as it stands.

ghost use Rattle.std.specs.Prelude.{◌≡◌, ◌+◌, ◌*◌, ◌<◌, ◌≤◌, ◌↔◌, false, length, map, IfOk, IsTrue, MatchOption, MatchResult};
ghost use Rattle.patterns.specs.Item.{literal};
ghost use Rattle.patterns.specs.Glob.{glob, plain, exact, folded};
ghost use Rattle.patterns.specs.Match.{Whole, SitsNowhere, IsFound};
ghost use Rattle.patterns.specs.Passed.{Needs};
ghost use Rattle.patterns.specs.Runs.{items_of_runs, reading_of};

use crate::error::PatternError;
use crate::read::{read_runs, split_caret};
use crate::run::{Run, Runs};
use crate::scratch::Scratch;
use crate::search::{Search, Ties, locate};
use crate::window::Window;
use memory::NoMemory;
use std::alloc::Allocator;
use std::marker::Model;
use tcltext::Value;

/// The most bytes that the text of a pattern may have.
pub const MOST_BYTES: usize = 1_000_000;

/// Refuses a text that is too long for a pattern.
fn check_length(text: &[u8]) -> Result<(), PatternError>
    ensures { MatchResult result
        (λ _. length text.now ≤ 1000000)
        (λ error. (error ≡ PatternError.TooLong) × (1000000 < length text.now)) }
{
    if MOST_BYTES < text.len() {
        return Err(PatternError::TooLong);
    }
    Ok(())
}

/// The runs of a text that is sought as it stands.
fn text_alone<A: Allocator + Copy>(alloc: A, text: &[u8]) -> Result<Runs<A>, NoMemory>
    ensures { IfOk result (λ runs. items_of_runs runs ≡ map literal text.now) }
{
    let starred = Vec::new(alloc);
    let last = Run::Text(Vec::from_slice(alloc, text)?);
    Ok(Runs { starred, last })
}

/// A pattern: a glob, or a text that is sought as it stands.
pub struct Pattern<A: Allocator> {
    runs: Runs<A>,
    ties: Ties,
    folds: bool,
    /// A text that stands in every window in which the pattern is found.
    needs: Value<A>,
}

impl<A: Allocator> Drop for Pattern<A> {
    fn drop(self) {
        let Pattern {
            runs: _,
            ties: _,
            folds: _,
            needs: _,
        } = self;
    }
}

impl<A: Allocator> Model for Pattern<A> {
    ghost use Rattle.patterns.specs.Item.{Reading};

    ghost Value = { Reading };

    ghost use Rattle.patterns.specs.Runs.{reading_of};
    ghost use Rattle.patterns.specs.Passed.{Needs};

    ghost view = { λ p. reading_of p.runs p.ties p.folds };

    ghost invariant = { λ p. Needs (reading_of p.runs p.ties p.folds) p.needs };
}

impl<A: Allocator + Copy> Pattern<A> {
    /// Reads a glob of expect(1): `^` as first byte and `$` as last item tie it to the window's
    /// ends.
    pub fn glob(alloc: A, text: &[u8]) -> Result<Pattern<A>, PatternError>
        ensures value { IfOk result (λ pattern. pattern ≡ glob text.now) }
        ensures too_long { (result ≡ Err PatternError.TooLong) ↔ (1000000 < length text.now) }
    {
        check_length(text)?;
        let (start, body) = split_caret(text);
        let (runs, end) = read_runs(alloc, body, true)?;
        Ok(Pattern::of_runs(alloc, runs, Ties { start, end })?)
    }

    /// Reads a glob of `string match` (string(n)), which is tied nowhere.
    pub fn plain(alloc: A, text: &[u8]) -> Result<Pattern<A>, PatternError>
        ensures value { IfOk result (λ pattern. pattern ≡ plain text.now) }
        ensures too_long { (result ≡ Err PatternError.TooLong) ↔ (1000000 < length text.now) }
    {
        check_length(text)?;
        let (runs, _) = read_runs(alloc, text, false)?;
        Ok(Pattern::of_runs(alloc, runs, Ties::NOWHERE)?)
    }

    /// A pattern that takes this text and no other.
    pub fn exact(alloc: A, text: &[u8]) -> Result<Pattern<A>, PatternError>
        ensures value { IfOk result (λ pattern. pattern ≡ exact text.now) }
        ensures too_long { (result ≡ Err PatternError.TooLong) ↔ (1000000 < length text.now) }
    {
        check_length(text)?;
        let runs = text_alone(alloc, text)?;
        Ok(Pattern::of_runs(alloc, runs, Ties::NOWHERE)?)
    }

    /// The pattern of these runs with these ties.
    fn of_runs(alloc: A, runs: Runs<A>, ties: Ties) -> Result<Pattern<A>, NoMemory>
        ensures { IfOk result (λ pattern. pattern ≡ reading_of runs ties false) }
    {
        let needs = Value::from_slice(alloc, runs.text())?;
        let folds = false;
        Ok(Pattern {
            runs,
            ties,
            folds,
            needs,
        })
    }
}

impl<A: Allocator> Pattern<A> {
    /// The same pattern, for which an upper case ASCII letter of a window compares as its lower
    /// case one (expect(1), `-nocase`).
    ///
    /// The pattern's own items stay as they are, so an upper case letter of the pattern is found
    /// nowhere. Takes no memory.
    pub fn fold(self) -> Pattern<A>
        ensures { result ≡ folded self }
    {
        let Pattern {
            runs,
            ties,
            folds: _,
            needs: _,
        } = self;
        Pattern {
            runs,
            ties,
            folds: true,
            needs: Value::empty(),
        }
    }

    /// A text that stands in every window in which the pattern is found, or the empty text where
    /// none is known.
    pub fn needs(&self) -> &Value<A>
        ensures { Needs self.now result.now }
    {
        &self.needs
    }

    /// Whether the pattern's items take the whole text, whatever the pattern is tied to. Takes no
    /// memory.
    ///
    /// The bytes of the text compare as they stand, even if the pattern folds the letters of
    /// windows.
    pub fn whole(&self, text: &[u8]) -> bool
        ensures { IsTrue result ↔ Whole self.now.items text.now }
    {
        let text = Window::new(text, false);
        let mut steps = 0;
        locate(&self.runs, Ties::BOTH_ENDS, &text, &mut steps).is_some()
    }

    /// Finds the pattern in the window, with the least start and, at that start, the greatest end.
    ///
    /// Takes no memory. A text between two `*` is found in time that is linear in the window; other
    /// runs, and texts whose letters are folded, are tried at each place that may begin them.
    /// [`Search::steps`] says what counts as a step.
    pub fn find(&self, window: &[u8], scratch: &mut Scratch<A>) -> Search
        requires { length window.now ≤ scratch.old }
        ensures found { MatchOption result.found
            (SitsNowhere self.now window.now)
            (λ found. IsFound self.now window.now found.start found.end) }
        ensures steps { result.steps ≤ (length self.now.items + 1) * (length window.now + 1) }
        ensures counted { 1 ≤ result.steps }
        ensures room { scratch.new ≡ scratch.old }
    {
        let window = Window::new(window, self.folds);
        let mut tests = 0;
        let found = locate(&self.runs, self.ties, &window, &mut tests);
        // The end of the items counts as one test.
        let steps = tests.saturating_add(1);
        Search { found, steps }
    }
}

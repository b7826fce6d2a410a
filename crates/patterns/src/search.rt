//! Where a pattern sits in a window: the least start and, at that start, the greatest end.
ghost use Rattle.std.specs.Prelude.{◌≡◌, ℕ, ◌+◌, ◌*◌, ◌^◌, ◌<◌, ◌≤◌, ◌∷◌, IsTrue, false, length, MatchOption};
ghost use Rattle.patterns.specs.Item.{any_run};
ghost use Rattle.patterns.specs.Match.{SitsNowhere, IsFound};
ghost use Rattle.patterns.specs.Runs.{items_of_run, items_of_runs, starred_items, reading_of, IsPlace, IsFurthest, EndsNowhere};

use crate::run::{Run, Runs};
use crate::window::Window;
use std::alloc::Allocator;

/// Where a pattern was found: its bytes are those from `start` up to `end`, which is not one of
/// them.
#[derive(Clone, Copy, Debug, PartialEq, Eq)]
pub struct Found {
    pub start: usize,
    pub end: usize,
}

/// The result of a search.
#[derive(Clone, Copy, Debug, PartialEq, Eq)]
pub struct Search {
    /// The place with the least start and, at that start, the greatest end.
    pub found: Option<Found>,
    /// How many entries of a table of items and places the search took: one for each item that was
    /// tested at a place or known not to take its byte there, one for each run of items between two
    /// `*`, and one for the end of the items.
    pub steps: u64,
}

/// The ends of the window that a pattern is tied to.
#[derive(Clone, Copy)]
pub struct Ties {
    /// The pattern begins at the window's beginning.
    pub start: bool,
    /// The pattern ends at the window's end.
    pub end: bool,
}

impl Ties {
    /// Tied to neither end.
    pub const NOWHERE: Ties = Ties {
        start: false,
        end: false,
    };

    /// Tied to both ends.
    pub const BOTH_ENDS: Ties = Ties {
        start: true,
        end: true,
    };
}

/// Finds the pattern in the window, whose bytes compare as the window says.
///
/// Between its `*` a pattern is runs of items of fixed length. The first run is taken at its first
/// place: where the pattern sits at a later start, it sits at this one too, since the `*` after
/// the run takes what lies between. For the same reason each further run is taken at its first
/// place after the one before, and the last one at its last place.
pub fn locate<A: Allocator>(
    runs: &Runs<A>,
    ties: Ties,
    window: &Window<'_>,
    steps: &mut u64,
) -> Option<Found>
    requires { length window.now < 2 ^ 64 }
    ensures found { let pattern = reading_of runs.now ties false in MatchOption result
        (SitsNowhere pattern window.now)
        (λ found. IsFound pattern window.now found.start found.end) }
    ensures steps { let items = items_of_runs runs.now in
        steps.new ≤ steps.old + length items * (length window.now + 1) }
{
    match runs.starred.split_first() {
        None => {
            let start = only_place(&runs.last, ties, window, steps)?;
            let end = start + runs.last.len();
            Some(Found { start, end })
        }
        Some((first, inner)) => {
            let start = start_place(first, ties.start, window, steps)?;
            let behind = start + first.len();
            let end = furthest_end(inner, &runs.last, ties.end, window, behind, steps)?;
            Some(Found { start, end })
        }
    }
}

/// The one candidate for the start of a pattern that begins with this run.
fn start_place<A: Allocator>(
    run: &Run<A>,
    tied: bool,
    window: &Window<'_>,
    steps: &mut u64,
) -> Option<usize>
    ensures place { let items = items_of_run run.now in
        MatchOption result
        ((k : ℕ) → (IsTrue tied → k ≡ 0) → ¬ IsPlace items window.now k)
        (λ place. IsPlace items window.now place × (IsTrue tied → place ≡ 0)
        × ((k : ℕ) → (IsTrue tied → k ≡ 0) → IsPlace items window.now k → place ≤ k)) }
    ensures steps { let items = items_of_run run.now in
        steps.new ≤ steps.old + length items * (length window.now + 1) }
{
    if !tied {
        return run.first_place(window, 0, steps);
    }
    if run.fits_at(window, 0, steps) {
        Some(0)
    } else {
        None
    }
}

/// The first place of a run that is the whole pattern.
fn only_place<A: Allocator>(
    run: &Run<A>,
    ties: Ties,
    window: &Window<'_>,
    steps: &mut u64,
) -> Option<usize>
    ensures place { let items = items_of_run run.now in
        let Tied : ℕ → Type 0 = λ k. (IsTrue ties.start → k ≡ 0)
        × (IsTrue ties.end → k + length items ≡ length window.now) in
        MatchOption result
        ((k : ℕ) → Tied k → ¬ IsPlace items window.now k)
        (λ place. IsPlace items window.now place × Tied place
        × ((k : ℕ) → Tied k → IsPlace items window.now k → place ≤ k)) }
    ensures steps { let items = items_of_run run.now in
        steps.new ≤ steps.old + length items * (length window.now + 1) }
{
    if !ties.end {
        return start_place(run, ties.start, window, steps);
    }
    if window.len() < run.len() || (ties.start && run.len() < window.len()) {
        return None;
    }
    let start = window.len() - run.len();
    if run.fits_at(window, start, steps) {
        Some(start)
    } else {
        None
    }
}

/// The greatest end, from `place` on, of a `*`, the inner runs with a `*` after each, and the last
/// run. Each inner run counts as one step, beside those of the search for it.
fn furthest_end<A: Allocator>(
    inner: &[Run<A>],
    last: &Run<A>,
    tied: bool,
    window: &Window<'_>,
    place: usize,
    steps: &mut u64,
) -> Option<usize>
    requires inside { place ≤ length window.now }
    requires fits { length window.now < 2 ^ 64 }
    ensures end { let items = any_run ∷ starred_items inner.now (items_of_run last.now) in
        MatchOption result
        (EndsNowhere items tied window.now place)
        (IsFurthest items tied window.now place) }
    ensures steps { let items = starred_items inner.now (items_of_run last.now) in
        steps.new ≤ steps.old + length items * (length window.now + 1) }
{
    let mut rest = inner;
    let mut from = place;
    while let Some((run, more)) = rest.split_first() {
        *steps = steps.saturating_add(1);
        from = run.first_place(window, from, steps)? + run.len();
        rest = more;
    }
    let end = end_place(last, tied, window, from, steps)?;
    Some(end + last.len())
}

/// The last place, at or after `from`, of a pattern's last run that stands after a `*`.
fn end_place<A: Allocator>(
    run: &Run<A>,
    tied: bool,
    window: &Window<'_>,
    from: usize,
    steps: &mut u64,
) -> Option<usize>
    requires { from ≤ length window.now }
    ensures place { let items = items_of_run run.now in
        let Tied : ℕ → Type 0 = λ k. (from ≤ k)
        × (IsTrue tied → k + length items ≡ length window.now) in
        MatchOption result
        ((k : ℕ) → Tied k → ¬ IsPlace items window.now k)
        (λ place. IsPlace items window.now place × Tied place
        × ((k : ℕ) → Tied k → IsPlace items window.now k → k ≤ place)) }
    ensures steps { let items = items_of_run run.now in
        steps.new ≤ steps.old + length items * (length window.now + 1) }
{
    if !tied {
        return run.last_place(window, from, steps);
    }
    if window.len() - from < run.len() {
        return None;
    }
    let last = window.len() - run.len();
    if run.fits_at(window, last, steps) {
        Some(last)
    } else {
        None
    }
}

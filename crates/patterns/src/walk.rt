//! Where a run fits in a window, by trying each place that may begin it.
ghost use Rattle.std.specs.Prelude.{ℕ, ◌+◌, ◌*◌, ◌<◌, ◌≤◌, length, MatchOption};
ghost use Rattle.patterns.specs.Runs.{items_of_run, IsPlace, IsFirstPlace, IsLastPlace, FitsNowhere};

use crate::run::Run;
use crate::window::Window;
use std::alloc::Allocator;

/// The first place of the window, at or after `from`, at which the run fits.
///
/// A byte that the first item is known not to take counts as one step.
pub fn first_place<A: Allocator>(
    run: &Run<A>,
    window: &Window<'_>,
    from: usize,
    steps: &mut u64,
) -> Option<usize>
    requires { from ≤ length window.now }
    ensures place { let items = items_of_run run.now in MatchOption result
        (FitsNowhere items window.now from)
        (IsFirstPlace items window.now from) }
    ensures steps { let items = items_of_run run.now in
        steps.new ≤ steps.old + length items * (length window.now + 1) }
{
    let size = run.len();
    let long = window.len();
    if long - from < size {
        return None;
    }
    if size == 0 {
        return Some(from);
    }
    let end = long - size + 1;
    let mut place = from;
    while place < end {
        let skipped = skipped_before(run, window, place, end);
        *steps = steps.saturating_add(skipped as u64);
        place += skipped;
        if place < end {
            if run.fits_at(window, place, steps) {
                return Some(place);
            }
            place += 1;
        }
    }
    None
}

/// The last place of the window, at or after `from`, at which the run fits.
///
/// Steps are counted as by [`first_place`].
pub fn last_place<A: Allocator>(
    run: &Run<A>,
    window: &Window<'_>,
    from: usize,
    steps: &mut u64,
) -> Option<usize>
    requires { from ≤ length window.now }
    ensures place { let items = items_of_run run.now in MatchOption result
        (FitsNowhere items window.now from)
        (IsLastPlace items window.now from) }
    ensures steps { let items = items_of_run run.now in
        steps.new ≤ steps.old + length items * (length window.now + 1) }
{
    let size = run.len();
    let long = window.len();
    if long - from < size {
        return None;
    }
    if size == 0 {
        return Some(long);
    }
    let mut end = long - size + 1;
    while from < end {
        let skipped = skipped_after(run, window, from, end);
        *steps = steps.saturating_add(skipped as u64);
        end -= skipped;
        if from < end {
            end -= 1;
            if run.fits_at(window, end, steps) {
                return Some(end);
            }
        }
    }
    None
}

/// How many places, from the first one on, have a byte that the run's first item is known not to
/// take.
fn skipped_before<A: Allocator>(
    run: &Run<A>,
    window: &Window<'_>,
    place: usize,
    end: usize,
) -> usize
    requires ordered { place ≤ end }
    requires within { end ≤ length window.now }
    requires some { 1 ≤ length (items_of_run run.now) }
    ensures within { place + result ≤ end }
    ensures none { (k : ℕ) → place ≤ k → k < place + result →
        ¬ IsPlace (items_of_run run.now) window.now k }
{
    let Some(byte) = run.first_byte() else {
        return 0;
    };
    match window.part(place, end).find_byte(byte) {
        Some(skipped) => skipped,
        None => end - place,
    }
}

/// How many places, from the last one before `end` on to the left, have a byte that the run's first
/// item is known not to take.
fn skipped_after<A: Allocator>(run: &Run<A>, window: &Window<'_>, from: usize, end: usize) -> usize
    requires ordered { from ≤ end }
    requires within { end ≤ length window.now }
    requires some { 1 ≤ length (items_of_run run.now) }
    ensures within { from + result ≤ end }
    ensures none { (k : ℕ) → end ≤ k + result → k < end →
        ¬ IsPlace (items_of_run run.now) window.now k }
{
    let Some(byte) = run.first_byte() else {
        return 0;
    };
    match window.part(from, end).rfind_byte(byte) {
        Some(last) => end - from - 1 - last,
        None => end - from,
    }
}

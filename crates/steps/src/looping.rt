//! The instructions of loops.

ghost use Rattle.std.specs.Prelude.{◌≡◌, ◌≤◌, true, IfOk};
ghost use Rattle.operators.specs.Truth.{truth_of};
ghost use Rattle.state.specs.Prelude.{Status};
ghost use Rattle.steps.specs.Formulas.{on_truth};
ghost use Rattle.steps.specs.Loops.{ending, stepping, turned, turning};
ghost use Rattle.steps.specs.View.{did_of, spot_of, with_parts};

use crate::handler::{Covered, Handler};
use crate::handling::failed;
use crate::progress::Progress;
use crate::spot::Spot;
use crate::stack::put_on;
use acts::{NoMemory, Raise};
use operators::{Operand, holds, number_in, truth};
use state::{Leave, Stop};
use std::alloc::Allocator;
use tcltext::Value;

/// A turn begins, where a tick is left: its body is next.
#[inline(always)]
pub fn begin_turn<A: Allocator + Copy>(
    spot: &mut Spot<A>,
    body: usize,
    end: usize,
    left: &mut u64,
) -> Result<Progress, NoMemory>
    ensures does { (s : Status) → IfOk result (λ progress.
        did_of progress spot.new (with_parts s.scopes s.procedures left.new s)
        ≡ turned body end true (spot_of spot.old)
        (with_parts s.scopes s.procedures left.old s)) }
    ensures ticks { left.new ≤ left.old }
    ensures place { left.new ≡ left.old → spot.new.place ≡ spot.old.place }
{
    if *left == 0 {
        return Ok(spot.end(Err(Leave::Stopped(Stop::Limit))));
    }
    *left -= 1;
    let handler = Handler {
        covers: Covered::Body(end),
        over: spot.place,
        operands: spot.operands.len(),
        marks: spot.marks.len(),
        levels: spot.levels,
    };
    put_on(&mut spot.handlers, handler)?;
    spot.place = body;
    Ok(Progress::GoesOn)
}

/// Begins a turn where a loop's test holds.
#[inline(always)]
fn turn_where<A: Allocator + Copy>(
    spot: &mut Spot<A>,
    holds: bool,
    body: usize,
    end: usize,
    left: &mut u64,
) -> Result<Progress, NoMemory>
    ensures does { (s : Status) → IfOk result (λ progress.
        did_of progress spot.new (with_parts s.scopes s.procedures left.new s)
        ≡ turned body end holds (spot_of spot.old)
        (with_parts s.scopes s.procedures left.old s)) }
    ensures ticks { left.new ≤ left.old }
    ensures place { left.new ≡ left.old → spot.new.place ≡ spot.old.place }
{
    if holds {
        return Ok(begin_turn(spot, body, end, left)?);
    }
    Ok(Progress::GoesOn)
}

/// Begins a turn where a truth value is true that is no number.
#[inline(never)]
fn turn_by_word<A: Allocator + Copy>(
    alloc: A,
    spot: &mut Spot<A>,
    word: Value<A>,
    body: usize,
    end: usize,
    left: &mut u64,
) -> Result<Progress, NoMemory>
    ensures does { (s : Status) → IfOk result (λ progress.
        did_of progress spot.new (with_parts s.scopes s.procedures left.new s)
        ≡ on_truth (truth_of word) (spot_of spot.old)
        (with_parts s.scopes s.procedures left.old s) (λ holds. turned body end holds
        (spot_of spot.old) (with_parts s.scopes s.procedures left.old s))) }
    ensures ticks { left.new ≤ left.old }
    ensures place { left.new ≡ left.old → spot.old.place ≤ spot.new.place }
{
    match truth(alloc, &Operand::text(word)) {
        Ok(holds) => Ok(turn_where(spot, holds, body, end, left)?),
        Err(Raise::Fault(fault)) => Ok(failed(alloc, spot, fault)?),
        Err(Raise::NoMemory(refusal)) => Err(refusal),
    }
}

/// Drops the truth value of a loop's test, and begins a turn where it is true.
pub fn turn<A: Allocator + Copy>(
    alloc: A,
    spot: &mut Spot<A>,
    body: usize,
    end: usize,
    left: &mut u64,
) -> Result<Progress, NoMemory>
    ensures does { (s : Status) → IfOk result (λ progress.
        did_of progress spot.new (with_parts s.scopes s.procedures left.new s)
        ≡ turning body end (spot_of spot.old) (with_parts s.scopes s.procedures left.old s)) }
    ensures ticks { left.new ≤ left.old }
    ensures place { left.new ≡ left.old → spot.old.place ≤ spot.new.place }
{
    let Some(value) = spot.operands.pop() else {
        return Ok(Progress::Stuck);
    };
    match number_in(&value) {
        Some(n) => Ok(turn_where(spot, holds(n), body, end, left)?),
        None => Ok(turn_by_word(alloc, spot, value, body, end, left)?),
    }
}

/// The body of a turn is over: its value is dropped, and the script after the turn begins.
pub fn begin_step<A: Allocator + Copy>(spot: &mut Spot<A>) -> Result<Progress, NoMemory>
    ensures does { (s : Status) → IfOk result (λ progress.
        did_of progress spot.new s ≡ stepping (spot_of spot.old) s) }
    ensures place { spot.new.place ≡ spot.old.place }
{
    let Some(_) = spot.operands.pop() else {
        return Ok(Progress::Stuck);
    };
    let Some(mut open) = spot.handlers.pop() else {
        return Ok(Progress::Stuck);
    };
    open.covers = Covered::Step;
    put_on(&mut spot.handlers, open)?;
    Ok(Progress::GoesOn)
}

/// A turn is over: the value on top is dropped.
pub fn end_turn<A: Allocator + Copy>(spot: &mut Spot<A>) -> Progress
    ensures does { (s : Status) →
        did_of result spot.new s ≡ ending (spot_of spot.old) s }
    ensures place { spot.new.place ≡ spot.old.place }
{
    let Some(_) = spot.operands.pop() else {
        return Progress::Stuck;
    };
    let Some(_) = spot.handlers.pop() else {
        return Progress::Stuck;
    };
    Progress::GoesOn
}

//! Where the outcome of a command, or the error of an instruction, leads.

ghost use Rattle.std.specs.Prelude.{◌≡◌, ◌∷◌, ◌≤◌, [], option_copied, ℕ, List, Some, Err, IfOk, OnOk};
ghost use Rattle.nesting.specs.Catch as catch;
ghost use Rattle.state.specs.Prelude.{Fault as Failure, Status, flaw_of, outcome_of};
ghost use Rattle.state.specs.Stores.{IsTold};
ghost use Rattle.state.specs.View as states;
ghost use Rattle.steps.specs.Handling.{fails, handled, outside, resumed, with_code};
ghost use Rattle.steps.specs.Moves.{jumping};
ghost use Rattle.steps.specs.Spot.{with_top};
ghost use Rattle.steps.specs.View.{did_of, handler_of, led_by, spot_of};

use crate::handler::{Handler, Way, way_of};
use crate::operating::jump;
use crate::progress::Progress;
use crate::spot::Spot;
use acts::{Fault, NoMemory};
use state::outcome::raised;
use state::variables::trouble;
use state::{Code, Leave, Outcome};
use std::alloc::Allocator;
use tclstate::ScopeError;
use tcltext::{Value, print_nat};

/// The handler that takes an outcome, and the way that the outcome goes.
#[derive(Clone, Copy)]
pub(crate) struct Taker {
    handler: Handler,
    way: Way,
}

/// The number of a code (catch(n)).
fn number_of(code: Code) -> u64
    ensures { result ≡ catch.number_of (states.code_of code) }
{
    match code {
        Code::Error => 1,
        Code::Return => 2,
        Code::Break => 3,
        Code::Continue => 4,
        Code::Again => 5,
        Code::AgainRunning => 5,
    }
}

/// Puts the number of a code on top, and then the value that came with it.
pub(crate) fn put_code<A: Allocator + Copy>(
    spot: &mut Spot<A>,
    number: u64,
    value: Value<A>,
) -> Result<(), NoMemory>
    ensures does { OnOk result (spot_of spot.new ≡ with_code number value (spot_of spot.old)) }
    ensures place { spot.new.place ≡ spot.old.place }
{
    let alloc = *spot.operands.allocator();
    let digits = Value::new(alloc, print_nat(alloc, number)?)?;
    spot.operands.push(digits)?;
    spot.operands.push(value)?;
    Ok(())
}

/// Goes outside of what a handler covers.
fn go_outside<A: Allocator + Copy>(spot: &mut Spot<A>, handler: &Handler)
    ensures does { spot_of spot.new ≡ outside (handler_of handler.now) (spot_of spot.old).handlers
        (spot_of spot.old) }
    ensures place { spot.new.place ≡ spot.old.place }
{
    spot.operands.truncate(handler.operands);
    spot.marks.truncate(handler.marks);
    spot.levels = handler.levels;
}

/// The body of the turn that has this handler is over, at this place: its value is empty.
fn end_body<A: Allocator + Copy>(
    spot: &mut Spot<A>,
    handler: Handler,
    end: usize,
) -> Result<Progress, NoMemory>
    ensures does { (s : Status) → IfOk result (λ progress. did_of progress spot.new s
        ≡ jumping end (with_top [] (record (spot_of spot.old) {
          handlers = handler_of handler ∷ (spot_of spot.old).handlers;
        })) s) }
    ensures place { spot.old.place ≤ spot.new.place }
{
    spot.handlers.push(handler)?;
    spot.operands.push(Value::empty())?;
    Ok(jump(spot, end))
}

/// The script of a `catch` is over with this code and this value, and this place is next.
fn end_script<A: Allocator + Copy>(
    spot: &mut Spot<A>,
    place: usize,
    code: Code,
    value: Value<A>,
) -> Result<Progress, NoMemory>
    ensures does { (s : Status) → IfOk result (λ progress. did_of progress spot.new s
        ≡ jumping place (with_code (catch.number_of (states.code_of code)) value
        (spot_of spot.old)) s) }
    ensures place { spot.old.place ≤ spot.new.place }
{
    put_code(spot, number_of(code), value)?;
    Ok(jump(spot, place))
}

/// Goes the way that an outcome with this code and this value goes.
fn go<A: Allocator + Copy>(
    spot: &mut Spot<A>,
    taker: Taker,
    code: Code,
    value: Value<A>,
) -> Result<Progress, NoMemory>
    ensures does { (s : Status) → IfOk result (λ progress. did_of progress spot.new s
        ≡ led_by (Some taker) (states.code_of code) value (spot_of spot.old) s) }
    ensures place { spot.old.place ≤ spot.new.place }
{
    let Taker { handler, way } = taker;
    go_outside(spot, &handler);
    match way {
        Way::Out => Ok(jump(spot, handler.over)),
        Way::End(end) => Ok(end_body(spot, handler, end)?),
        Way::Caught => Ok(end_script(spot, handler.over, code, value)?),
    }
}

/// Takes off the innermost handler that takes an outcome with this code, and all those within it;
/// `None` where none takes it.
fn taker_of<A: Allocator + Copy>(spot: &mut Spot<A>, code: Code) -> Option<Taker>
    ensures takes { (value : List ℕ) → (s : Status) →
        led_by result (states.code_of code) value (spot_of spot.new) s
        ≡ handled (spot_of spot.old).handlers (states.code_of code) value (spot_of spot.old) s }
    ensures place { spot.new.place ≡ spot.old.place }
{
    'handlers: while let Some(handler) = spot.handlers.pop() {
        if let Some(way) = way_of(handler.covers, code) {
            return Some(Taker { handler, way });
        }
    }
    None
}

/// Goes to what takes an outcome with this code and this value; where nothing does, the code is
/// over with it.
fn leave<A: Allocator + Copy>(
    spot: &mut Spot<A>,
    code: Code,
    value: Value<A>,
) -> Result<Progress, NoMemory>
    ensures does { (s : Status) → IfOk result (λ progress. did_of progress spot.new s
        ≡ handled (spot_of spot.old).handlers (states.code_of code) value (spot_of spot.old) s) }
    ensures place { spot.old.place ≤ spot.new.place }
{
    match taker_of(spot, code) {
        Some(taker) => Ok(go(spot, taker, code, value)?),
        None => Ok(spot.end(Err(Leave::Coded(code, value)))),
    }
}

/// Goes on after a command that has no value.
#[inline(never)]
fn leave_by<A: Allocator + Copy>(spot: &mut Spot<A>, way: Leave<A>) -> Result<Progress, NoMemory>
    ensures does { (s : Status) → IfOk result (λ progress. did_of progress spot.new s
        ≡ resumed (spot_of spot.old) (outcome_of (Err way)) s) }
    ensures place { spot.old.place ≤ spot.new.place }
{
    match way {
        Leave::Coded(code, value) => Ok(leave(spot, code, value)?),
        Leave::Stopped(stop) => Ok(spot.end(Err(Leave::Stopped(stop)))),
    }
}

/// Goes on after a command with this outcome: its value is put on top, and each other outcome goes
/// to what takes it of all that is open: `break` and `continue` to the turn of a loop, and each to
/// the script of a `catch`, but for a stop of the run. Where nothing takes it the code is over.
///
/// # Errors
/// `NoMemory` where memory is refused.
#[inline(always)]
pub fn resume<A: Allocator + Copy>(
    spot: &mut Spot<A>,
    outcome: Outcome<A>,
) -> Result<Progress, NoMemory>
    ensures does { (s : Status) → IfOk result (λ progress. did_of progress spot.new s
        ≡ resumed (spot_of spot.old) (outcome_of outcome) s) }
    ensures place { spot.old.place ≤ spot.new.place }
{
    match outcome {
        Ok(value) => Ok(spot.put(value)?),
        Err(way) => Ok(leave_by(spot, way)?),
    }
}

/// An instruction fails with the script's error, which goes to what takes it of all that is open.
#[cold]
#[inline(never)]
pub(crate) fn failed<A: Allocator + Copy>(
    alloc: A,
    spot: &mut Spot<A>,
    fault: Fault<A>,
) -> Result<Progress, NoMemory>
    ensures does { (s : Status) → IfOk result (λ progress. did_of progress spot.new s
        ≡ fails (flaw_of fault) (spot_of spot.old) s) }
    ensures place { spot.old.place ≤ spot.new.place }
{
    let outcome = raised(alloc, fault)?;
    Ok(resume(spot, outcome)?)
}

/// An instruction fails since a variable, or an element, has this trouble.
#[cold]
#[inline(never)]
pub(crate) fn fail_to_reach<A: Allocator + Copy>(
    alloc: A,
    spot: &mut Spot<A>,
    error: ScopeError,
    name: &[u8],
    index: Option<&[u8]>,
) -> Result<Progress, NoMemory>
    ensures does { IfOk result (λ progress. (fault : Failure A) ×
        IsTold fault error name.now (option_copied index.entry) ×
        ((s : Status) →
        did_of progress spot.new s ≡ fails (flaw_of fault) (spot_of spot.old) s)) }
    ensures place { spot.old.place ≤ spot.new.place }
{
    let fault = trouble(alloc, error, name, index)?;
    Ok(failed(alloc, spot, fault)?)
}

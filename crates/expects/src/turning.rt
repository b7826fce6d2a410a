//! A turn: the choice, the wait where nothing is chosen, and the body of what is chosen (expect(1),
//! expect).

ghost use Rattle.std.specs.Prelude.{
  ◌≡◌,
  ◌<◌,
  ◌≤◌,
  length,
  None,
  is_some,
  IfOk,
  IfSome,
  IsTrue,
  OnErr,
  vec_capacity,
};
ghost use Rattle.choices.specs.Choice.{Chooses};
ghost use Rattle.expects.specs.Turn as definition;
ghost use Rattle.expects.specs.View.{Comes, HasChoice, IsPlain, Selected, course_of_turned, done, settles, turn_of};
ghost use Rattle.state.specs.Prelude.{within, Status, FitsState};

use crate::clock::{clock_of, later};
use crate::report::report;
use crate::turn::{Turn, Turned, Waits};
use acts::{Act, Fault, NoMemory, Timer};
use dialog::{Choice, Effective, Trigger};
use kept::Kept;
use kinds::failed;
use state::outcome::raised;
use state::{Leave, State, Stop};
use std::alloc::Allocator;
use tcltext::Value;

/// A turn: the body of what is chosen runs, or else there is a wait.
///
/// # Errors
/// `NoMemory`; where nothing is chosen and the timer was started before, only where the vector of
/// rows has less room than there are ids.
pub fn turn<A: Allocator + Copy>(
    alloc: A,
    kept: &mut Kept<A>,
    state: &mut State<A>,
    turn: Box<Turn<A>, A>,
) -> Result<Turned<A>, NoMemory>
    ensures comes { (s : Status) → FitsState state.old s → IfOk result (λ turned.
        Comes course_of_turned turned state.new
        (definition.turns (turn_of turn.value) turn.value.levels s)) }
    ensures left { state.new.left ≤ state.old.left }
    ensures plain { IfOk result (λ turned. IsPlain turned) }
    ensures refused { Chooses state.old.ids.table.lines turn.value.trigger
        turn.value.effective.pairs None → IsTrue (is_some turn.value.clock) →
        OnErr result (vec_capacity turn.value.rows < length turn.value.effective.ids) }
{
    let trigger = turn.trigger;
    match select(alloc, state, &turn.effective, trigger)? {
        Some(choice) => does(alloc, kept, state, turn, choice),
        None => wait(alloc, state, turn),
    }
}

/// Makes a choice after a trigger, if there is one.
pub(crate) fn select<A: Allocator + Copy>(
    alloc: A,
    state: &mut State<A>,
    effective: &Effective<A>,
    trigger: Trigger,
) -> Result<Option<Choice<A>>, NoMemory>
    ensures selects { (s : Status) → FitsState state.old s → IfOk result (λ choice.
        Selected choice trigger effective.now.pairs state.new s) }
    ensures left { state.new.left ≡ state.old.left }
    ensures some { IfOk result (λ choice. IfSome choice (λ made.
        HasChoice state.old.ids.table.lines trigger effective.now.pairs)) }
    ensures refused { OnErr result
        (HasChoice state.old.ids.table.lines trigger effective.now.pairs) }
{
    state.ids.table.select(alloc, effective.pairs(), trigger)
}

/// Does what was chosen; with nothing chosen the value of the `expect` is empty.
pub(crate) fn settle<A: Allocator + Copy>(
    alloc: A,
    kept: &mut Kept<A>,
    state: &mut State<A>,
    turn: Box<Turn<A>, A>,
    choice: Option<Choice<A>>,
) -> Result<Turned<A>, NoMemory>
    ensures comes { (s : Status) → FitsState state.old s → IfOk result (λ turned.
        Comes course_of_turned turned state.new
        (settles choice (turn_of turn.value) turn.value.levels s)) }
    ensures left { state.new.left ≤ state.old.left }
    ensures plain { IfOk result (λ turned. IsPlain turned) }
{
    match choice {
        Some(choice) => does(alloc, kept, state, turn, choice),
        None => Ok(Turned::Has(Ok(Value::empty()))),
    }
}

/// Sets `expect_out`, and runs the body of what was chosen.
fn does<A: Allocator + Copy>(
    alloc: A,
    kept: &mut Kept<A>,
    state: &mut State<A>,
    turn: Box<Turn<A>, A>,
    choice: Choice<A>,
) -> Result<Turned<A>, NoMemory>
    ensures comes { (s : Status) → FitsState state.old s → IfOk result (λ turned.
        Comes course_of_turned turned state.new
        (done choice (turn_of turn.value) turn.value.levels s)) }
    ensures left { state.new.left ≤ state.old.left }
    ensures plain { IfOk result (λ turned. IsPlain turned) }
{
    let Choice { body, taken } = choice;
    match report(alloc, &mut state.scopes, taken) {
        Ok(()) => run(alloc, kept, state, turn, &body),
        Err(why) => Ok(Turned::Has(failed(alloc, why)?)),
    }
}

/// Runs a body, one level deeper.
fn run<A: Allocator + Copy>(
    alloc: A,
    kept: &mut Kept<A>,
    state: &mut State<A>,
    turn: Box<Turn<A>, A>,
    body: &Value<A>,
) -> Result<Turned<A>, NoMemory>
    ensures comes { (s : Status) → FitsState state.old s → IfOk result (λ turned.
        Comes course_of_turned turned state.new (within turn.value.levels body.now s
        (definition.behind (turn_of turn.value) turn.value.levels))) }
    ensures left { state.new.left ≤ state.old.left }
    ensures plain { IfOk result (λ turned. IsPlain turned) }
{
    let script = kept.get(body.as_slice())?;
    let Some(inner) = turn.levels.checked_sub(1) else {
        return Ok(Turned::Has(raised(alloc, Fault::TooManyNested)?));
    };
    Ok(Turned::Runs(script, inner, turn))
}

/// Waits, once the timer is known.
fn wait<A: Allocator + Copy>(
    alloc: A,
    state: &mut State<A>,
    turn: Box<Turn<A>, A>,
) -> Result<Turned<A>, NoMemory>
    ensures comes { (s : Status) → FitsState state.old s → IfOk result (λ turned.
        Comes course_of_turned turned state.new
        (definition.waits (turn_of turn.value) turn.value.levels s)) }
    ensures left { state.new.left ≤ state.old.left }
    ensures plain { IfOk result (λ turned. IsPlain turned) }
    ensures refused { IsTrue (is_some turn.value.clock) →
        OnErr result (vec_capacity turn.value.rows < length turn.value.effective.ids) }
{
    match clock_of(alloc, state, turn.clock, turn.seconds) {
        Ok(clock) => wait_by(alloc, state, turn, clock),
        Err(why) => Ok(Turned::Has(failed(alloc, why)?)),
    }
}

/// Waits with a timer. The wait takes a tick; with no tick left the run stops.
fn wait_by<A: Allocator>(
    alloc: A,
    state: &mut State<A>,
    mut turn: Box<Turn<A>, A>,
    clock: Timer,
) -> Result<Turned<A>, NoMemory>
    ensures comes { (s : Status) → FitsState state.old s → IfOk result (λ turned.
        Comes course_of_turned turned state.new
        (definition.waits_by clock (turn_of turn.value) turn.value.levels s)) }
    ensures left { state.new.left ≤ state.old.left }
    ensures plain { IfOk result (λ turned. IsPlain turned) }
    ensures refused { OnErr result
        (vec_capacity turn.value.rows < length turn.value.effective.ids) }
{
    if state.left == 0 {
        return Ok(Turned::Has(Err(Leave::Stopped(Stop::Limit))));
    }
    state.left -= 1;
    let mut rows = turn.take_rows(alloc);
    state.ids.table.fill(&mut rows, turn.effective.ids())?;
    turn.set_clock(later(clock));
    let act = Act::Wait { rows, timer: clock };
    Ok(Turned::Asks(act, Waits::Awaited(turn)))
}

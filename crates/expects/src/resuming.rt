//! What follows the body of the branch that was chosen (expect(1), expect and exp_continue).

ghost use Rattle.std.specs.Prelude.{◌≡◌, ◌≤◌, IfOk};
ghost use Rattle.state.specs.Prelude.{Raises, Leaves, Status, FitsState, outcome_of};
ghost use Rattle.acts.specs.Flaw as flaw;
ghost use Rattle.expects.specs.Turn as definition;
ghost use Rattle.expects.specs.View.{Comes, IsPlainOpening, TurnsBehind, course_of_opening, turn_of};
ghost use Rattle.state.specs.View.{code_of};

use crate::turn::{Opening, Turn};
use acts::{Fault, Id, NoMemory, Raise, Timer};
use dialog::Trigger;
use kinds::failed;
use state::{Code, Leave, Outcome, State};
use std::alloc::Allocator;
use tcltext::Value;

/// Hands the outcome of a body to its turn: by `exp_continue` the turn goes on, else the outcome is
/// that of the `expect`.
///
/// # Errors
/// `NoMemory`.
pub fn resumed<A: Allocator + Copy>(
    alloc: A,
    state: &mut State<A>,
    turn: Box<Turn<A>, A>,
    outcome: Outcome<A>,
) -> Result<Opening<A>, NoMemory>
    ensures comes { (s : Status) → FitsState state.old s → IfOk result (λ opening.
        Comes course_of_opening opening state.new
        (definition.behind (turn_of turn.value) turn.value.levels s (outcome_of outcome))) }
    ensures left { state.new.left ≤ state.old.left }
    ensures plain { IfOk result (λ opening. IsPlainOpening opening) }
    ensures behind { IfOk result (λ opening. TurnsBehind opening (outcome_of outcome)) }
{
    match outcome {
        Ok(value) => Ok(Opening::Has(Ok(value))),
        Err(Leave::Coded(code, value)) => behind_code(alloc, state, turn, code, value),
        Err(Leave::Stopped(stop)) => Ok(Opening::Has(Err(Leave::Stopped(stop)))),
    }
}

/// The same for an outcome with a code other than ok.
fn behind_code<A: Allocator + Copy>(
    alloc: A,
    state: &State<A>,
    turn: Box<Turn<A>, A>,
    code: Code,
    value: Value<A>,
) -> Result<Opening<A>, NoMemory>
    ensures comes { (s : Status) → FitsState state.now s → IfOk result (λ opening.
        Comes course_of_opening opening state.now
        (definition.behind (turn_of turn.value) turn.value.levels s
        (Leaves (code_of code) value))) }
    ensures plain { IfOk result (λ opening. IsPlainOpening opening) }
    ensures behind { IfOk result (λ opening. TurnsBehind opening (Leaves (code_of code) value)) }
{
    match code {
        Code::Again => again(alloc, state, turn, None),
        Code::AgainRunning => {
            let clock = turn.clock;
            again(alloc, state, turn, clock)
        }
        Code::Error => Ok(Opening::Has(Err(Leave::Coded(Code::Error, value)))),
        Code::Return => Ok(Opening::Has(Err(Leave::Coded(Code::Return, value)))),
        Code::Break => Ok(Opening::Has(Err(Leave::Coded(Code::Break, value)))),
        Code::Continue => Ok(Opening::Has(Err(Leave::Coded(Code::Continue, value)))),
    }
}

/// A turn goes on with the ids that are still open and their pairs, and with this timer, if there
/// is one; where none of its ids is open any more, the `expect` is over with the error that the
/// first of them is not open.
fn again<A: Allocator + Copy>(
    alloc: A,
    state: &State<A>,
    mut turn: Box<Turn<A>, A>,
    clock: Option<Timer>,
) -> Result<Opening<A>, NoMemory>
    ensures comes { (s : Status) → FitsState state.now s → IfOk result (λ opening.
        Comes course_of_opening opening state.now
        (definition.again clock (turn_of turn.value) turn.value.levels s)) }
    ensures plain { IfOk result (λ opening. IsPlainOpening opening) }
{
    let first = first_of(turn.effective.ids());
    turn.effective.prune(&state.ids.table);
    if turn.effective.ids().is_empty() {
        return Ok(Opening::Has(failed(alloc, shut(alloc, first))?));
    }
    turn.begin_again(clock);
    Ok(Opening::Turns(turn))
}

/// The error that an id is not open.
pub(crate) fn shut<A: Allocator + Copy>(alloc: A, id: Option<Id>) -> Raise<A>
    ensures { Raises (flaw.NotOpen (definition.named_by id)) result }
{
    let Some(id) = id else {
        return Raise::Fault(Fault::NotOpen(None));
    };
    match id.text(alloc) {
        Ok(text) => Raise::Fault(Fault::NotOpen(Some(text))),
        Err(refusal) => refusal.into(),
    }
}

/// The first of ids, where there is one.
fn first_of(ids: &[Id]) -> Option<Id>
    ensures { result ≡ definition.first_of ids.now }
{
    match ids {
        [first, ..] => Some(*first),
        [] => None,
    }
}

//! How the frames take the outcome of the part within them, from the top down.

ghost use Rattle.std.specs.Prelude.{◌≤◌, ◌+◌, ◌*◌, List, IfOk};
ghost use Rattle.state.specs.Prelude.{Status, FitsState, outcome_of};
ghost use Rattle.nesting.specs.View as control;
ghost use Rattle.machine.specs.Frames.{Onward, left_of, next_of, onward_of, stack, weight, weight_in, weight_of, words_in, words_of_frame};
ghost use Rattle.expects.specs.Turn.{behind as behind_body};
ghost use Rattle.expects.specs.View.{turn_of};
ghost use Rattle.machine.specs.Phases.{IsEmptied, IsLighter, Lightens, Unwinds};
ghost use Rattle.machine.specs.declared.frame.Frame as framed;
ghost use Rattle.machine.specs.declared.frame.Frame.TheVariants as frames_are;
ghost use Rattle.state.specs.Budget.{again_of};
ghost use Rattle.state.specs.declared.state.State as stated;
ghost use Rattle.steps.specs.Run.{branches_in};

use crate::frame::{Frame, put_above};
use crate::starting::Next;
use acts::NoMemory;
use code::Entry;
use expects::resuming::resumed;
use expects::turn::{Opening, Turn};
use nesting::{self, Held, Nesting};
use state::{Outcome, State};
use std::alloc::Allocator;
use tcltext::Value;

/// What a frame does with the outcome of the part within it.
#[derive(Drop)]
pub enum Unwound<A: Allocator> {
    /// The frame is over, with this outcome.
    Has(Outcome<A>),
    /// This begins on top of the frames.
    Begins(Next<A>),
    /// This code is entered with this value, and so many levels may still nest in it.
    Enters(Entry<A>, u8, Value<A>),
}

/// Hands an outcome to the frames, from the top down, until something begins or no frame is left.
pub(crate) fn unwind<A: Allocator + Copy>(
    alloc: A,
    frames: &mut Vec<Frame<A>, A>,
    state: &mut State<A>,
    mut outcome: Outcome<A>,
) -> Result<Unwound<A>, NoMemory>
    ensures unwinds { (last : Onward) (s : Status) → FitsState state.old s →
        IfOk result (λ unwound. Unwinds last unwound (stack frames.new) state.new
        (onward_of last (stack frames.old) s (outcome_of outcome))) }
    ensures emptied { IfOk result (λ unwound. IsEmptied unwound (stack frames.new)) }
    ensures lightens { IfOk result (λ unwound.
        Lightens unwound (stack frames.new) state.new (1 + weight (stack frames.old))
        (again_of (outcome_of outcome) + words_in (stack frames.old)) state.old.left) }
    ensures lighter { IfOk result (λ unwound.
        IsLighter unwound (stack frames.new) (weight (stack frames.old))) }
    ensures left { IfOk result (λ _. state.new.left ≤ state.old.left) }
{
    'frames: loop {
        let Some(frame) = Frame::pop(frames) else {
            return Ok(Unwound::Has(outcome));
        };
        match resume(alloc, frames, state, frame, outcome)? {
            Unwound::Has(next) => outcome = next,
            Unwound::Begins(next) => return Ok(Unwound::Begins(next)),
            Unwound::Enters(it, levels, value) => {
                return Ok(Unwound::Enters(it, levels, value));
            }
        }
    }
}

/// Hands the frame that was on top the outcome of the part within it.
fn resume<A: Allocator + Copy>(
    alloc: A,
    frames: &mut Vec<Frame<A>, A>,
    state: &mut State<A>,
    frame: Frame<A>,
    outcome: Outcome<A>,
) -> Result<Unwound<A>, NoMemory>
    ensures unwinds { (last : Onward) (s : Status) → FitsState state.old s →
        IfOk result (λ unwound. Unwinds last unwound (stack frames.new) state.new
        (left_of last (next_of frame s (outcome_of outcome)) (stack frames.old))) }
    ensures lightens { IfOk result (λ unwound.
        Lightens unwound (stack frames.new) state.new
        (weight_of frame + weight (stack frames.old))
        (again_of (outcome_of outcome) + (words_of_frame frame + words_in (stack frames.old)))
        state.old.left) }
    ensures left { IfOk result (λ _. state.new.left ≤ state.old.left) }
{
    match frame {
        Frame::Code(it, levels) => Ok(code_on(it, levels, outcome)),
        Frame::Held(held) => held_on(alloc, frames, state, held, outcome),
        Frame::Turn(turn) => turn_on(alloc, frames, state, turn, outcome),
    }
}

/// Hands a code of which nothing is done yet an outcome: it is entered with a value, and passes on
/// all else.
fn code_on<A: Allocator>(it: Entry<A>, levels: u8, outcome: Outcome<A>) -> Unwound<A>
    ensures unwinds { (last : Onward) (frames : List (framed.Frame A)) (state : stated.State A)
        (s : Status) → FitsState state s → Unwinds last result frames state
        (left_of last (next_of (frames_are.Code it levels) s (outcome_of outcome)) frames) }
    ensures lightens { (frames : List (framed.Frame A)) (state : stated.State A) →
        Lightens result frames state (weight_in it + weight frames)
        (again_of (outcome_of outcome) + (branches_in it + words_in frames)) state.left }
{
    match outcome {
        Ok(value) => Unwound::Enters(it, levels, value),
        Err(leave) => Unwound::Has(Err(leave)),
    }
}

/// Hands a turn of `expect` the outcome of the body that it chose.
#[inline(never)]
fn turn_on<A: Allocator + Copy>(
    alloc: A,
    frames: &mut Vec<Frame<A>, A>,
    state: &mut State<A>,
    turn: Box<Turn<A>, A>,
    outcome: Outcome<A>,
) -> Result<Unwound<A>, NoMemory>
    ensures unwinds { (last : Onward) (s : Status) → FitsState state.old s →
        IfOk result (λ unwound. Unwinds last unwound (stack frames.new) state.new
        (left_of last (behind_body (turn_of turn.value) turn.value.levels s (outcome_of outcome))
        (stack frames.old))) }
    ensures lightens { IfOk result (λ unwound.
        Lightens unwound (stack frames.new) state.new (1 + weight (stack frames.old))
        (again_of (outcome_of outcome) + words_in (stack frames.old)) state.old.left) }
    ensures left { state.new.left ≤ state.old.left }
{
    match resumed(alloc, state, turn, outcome)? {
        Opening::Has(outcome) => Ok(Unwound::Has(outcome)),
        Opening::Turns(turn) => Ok(Unwound::Begins(Next::Turn(turn))),
    }
}

/// Continues a command, or a call, after a script or a formula that it ran.
#[inline(never)]
fn held_on<A: Allocator + Copy>(
    alloc: A,
    frames: &mut Vec<Frame<A>, A>,
    state: &mut State<A>,
    held: Held<A>,
    outcome: Outcome<A>,
) -> Result<Unwound<A>, NoMemory>
    ensures unwinds { (last : Onward) (s : Status) → FitsState state.old s →
        IfOk result (λ unwound. Unwinds last unwound (stack frames.new) state.new
        (left_of last (control.next_of held s (outcome_of outcome)) (stack frames.old))) }
    ensures lightens { IfOk result (λ unwound.
        Lightens unwound (stack frames.new) state.new (1 + weight (stack frames.old))
        (1 + words_in (stack frames.old)) state.old.left) }
    ensures left { state.new.left ≤ state.old.left }
{
    match nesting::resumed(alloc, state, held, outcome)? {
        Nesting::Has(outcome) => Ok(Unwound::Has(outcome)),
        Nesting::Runs(it, levels, held) => {
            put_above(frames, it, levels, Frame::Held(held))?;
            Ok(Unwound::Begins(Next::Again))
        }
    }
}

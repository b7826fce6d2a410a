//! The acts that close a run (this project's own rule).

ghost use Rattle.std.specs.Prelude.{◌≡◌, ℕ, List, [], IfOk};
ghost use Rattle.state.specs.Prelude.{deed_of, reply_of, Status, FitsState, outcome_of};
ghost use Rattle.choices.specs.Peers.{opened};
ghost use Rattle.machine.specs.Frames.{Onward};
ghost use Rattle.machine.specs.Phases.{IsTold, Stands, closing_on};
ghost use Rattle.machine.specs.View.{ending_of};
ghost use Rattle.machine.specs.declared.frame.Frame.{Frame};
ghost use Rattle.runs.specs.Closing.{closing as closes_run, ends_with, leaves, reports};
ghost use Rattle.runs.specs.Ending.{stopped};
ghost use Rattle.state.specs.Dialogue as dialogues;
ghost use Rattle.state.specs.Dialogue.{judged};
ghost use Rattle.state.specs.Outcome as outcomes;
ghost use Rattle.state.specs.View.{code_of, stop_of};

use crate::end::End;
use crate::phase::Phase;
use acts::{Act, Answer, Fault, NoMemory, fits};
use state::{Code, Leave, Outcome, State, Stop};
use std::alloc::Allocator;

/// What is done with the answer to an act that closes a run.
#[derive(Drop)]
pub enum Closing<A: Allocator> {
    /// The text of an uncaught error is written; what is open is closed next.
    Report(Vec<u8, A>),
    /// An id or the log is closed; what else is open is closed next, and the run ends with this
    /// end.
    Close(End<A>),
}

/// Begins to close a run whose script ended with this outcome, after this many answers.
pub fn close_run<A: Allocator + Copy>(
    alloc: A,
    state: &mut State<A>,
    answers: u64,
    outcome: Outcome<A>,
) -> Result<Phase<A>, NoMemory>
    ensures stands { (frames : List (Frame A)) (last : Onward) (s : Status) →
        FitsState state.old s →
        IfOk result (λ phase.
        Stands last phase frames state.new answers (closes_run s (outcome_of outcome))) }
    ensures told { IfOk result IsTold }
{
    match outcome {
        Ok(_) => Ok(close_next(state, End::Exit(0))),
        Err(Leave::Coded(code, text)) => leave_run(alloc, state, code, text.as_slice()),
        Err(Leave::Stopped(stop)) => Ok(stop_run(state, answers, stop)),
    }
}

/// Begins to close a run whose script ended with this code.
fn leave_run<A: Allocator + Copy>(
    alloc: A,
    state: &mut State<A>,
    code: Code,
    text: &[u8],
) -> Result<Phase<A>, NoMemory>
    ensures stands { (frames : List (Frame A)) (last : Onward) (s : Status) (answers : ℕ) →
        FitsState state.old s →
        IfOk result (λ phase.
        Stands last phase frames state.new answers (leaves (code_of code) text.now s)) }
    ensures told { IfOk result IsTold }
{
    match code {
        Code::Error => report(alloc, Vec::from_slice(alloc, text)?),
        Code::Return => Ok(close_next(state, End::Exit(0))),
        Code::Break => report(alloc, Fault::BreakOutside.text(alloc)?),
        Code::Continue => report(alloc, Fault::ContinueOutside.text(alloc)?),
        Code::Again => report(alloc, Fault::AgainOutside.text(alloc)?),
        Code::AgainRunning => report(alloc, Fault::AgainOutside.text(alloc)?),
    }
}

/// Writes the text of an uncaught error first.
fn report<A: Allocator + Copy>(alloc: A, text: Vec<u8, A>) -> Result<Phase<A>, NoMemory>
    ensures stands { (frames : List (Frame A)) (last : Onward) (s : Status) (answers : ℕ)
        (state : State A) →
        FitsState state s →
        IfOk result (λ phase. Stands last phase frames state answers (reports text.items s)) }
    ensures told { IfOk result IsTold }
{
    let mut line = Vec::from_slice(alloc, &text)?;
    line.push(b'\n')?;
    Ok(Phase::Closes(Act::Err(line), Closing::Report(text)))
}

/// Begins to close a run that this stop ended, after this many answers.
fn stop_run<A: Allocator + Copy>(state: &mut State<A>, answers: u64, stop: Stop) -> Phase<A>
    ensures stands { (frames : List (Frame A)) (last : Onward) (s : Status) →
        FitsState state.old s →
        Stands last result frames state.new answers
        (closes_run s (outcomes.Stops (stop_of stop))) }
    ensures told { IsTold result }
{
    match stop {
        Stop::Exit(status) => close_next(state, End::Exit(status)),
        Stop::Limit => close_next(state, End::Limit),
        Stop::WriterFailed => close_next(state, End::WriterFailed),
        Stop::BadAnswer => Phase::Over(End::BadAnswer(answers)),
        Stop::NoMore => Phase::Over(End::NoMore),
    }
}

/// Closes the next open id, or the log where no id is open; with nothing open the run is over.
fn close_next<A: Allocator + Copy>(state: &mut State<A>, end: End<A>) -> Phase<A>
    ensures stands { (frames : List (Frame A)) (last : Onward) (s : Status) (answers : ℕ) →
        FitsState state.old s →
        Stands last result frames state.new answers (ends_with (ending_of end) s) }
    ensures told { IsTold result }
{
    match state.ids.close_oldest() {
        Some(id) => Phase::Closes(Act::Close(id), Closing::Close(end)),
        None => close_log(state, end),
    }
}

/// Closes the log if it is open, and else the run is over; no id is open here.
fn close_log<A: Allocator>(state: &mut State<A>, end: End<A>) -> Phase<A>
    ensures stands { (frames : List (Frame A)) (last : Onward) (s : Status) (answers : ℕ) →
        FitsState state.old s →
        opened s.ids.peers ≡ [] →
        Stands last result frames state.new answers (ends_with (ending_of end) s) }
    ensures told { IsTold result }
{
    if !state.log.logging {
        return Phase::Over(end);
    }
    state.log.logging = false;
    Phase::Closes(Act::CloseLog, Closing::Close(end))
}

/// Takes the answer to an act that closes a run; it is the `answers`-th answer of the run.
pub fn closed<A: Allocator + Copy>(
    state: &mut State<A>,
    answers: u64,
    act: Act<A>,
    closing: Closing<A>,
    answer: Answer<A>,
) -> Phase<A>
    ensures stands { (frames : List (Frame A)) (last : Onward) (s : Status) →
        FitsState state.old s →
        Stands last result frames state.new answers
        (judged stopped (deed_of act) (reply_of answer) (closing_on closing s (reply_of answer))) }
    ensures told { IsTold result }
{
    if is_no_more(&answer) {
        return Phase::Over(End::NoMore);
    }
    if !fits(&act, &answer) {
        return Phase::Over(End::BadAnswer(answers));
    }
    close_next(state, next_end(closing, answer))
}

/// Whether the world had no more answers.
pub fn is_no_more<A: Allocator>(answer: &Answer<A>) -> bool
    ensures { result ≡ dialogues.is_no_more (reply_of answer.now) }
{
    matches!(answer, Answer::NoMore)
}

/// The end of a run whose closing act got this answer.
fn next_end<A: Allocator>(closing: Closing<A>, answer: Answer<A>) -> End<A>
    ensures { (s : Status) →
        closing_on closing s (reply_of answer) ≡ ends_with (ending_of result) s }
{
    match closing {
        Closing::Report(text) => match answer {
            Answer::Failed(_) => End::WriterFailed,
            _ => End::Error(text),
        },
        Closing::Close(end) => end,
    }
}

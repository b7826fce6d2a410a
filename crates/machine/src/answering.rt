//! Answers to a session's acts: what each leads to.

ghost use Rattle.std.specs.Prelude.{◌≡◌, ◌<◌, ◌+◌, [], length, IfOk, IfErr, ◌^◌};
ghost use Rattle.state.specs.Prelude.{deed_of, reply_of, Dialogue, Status, FitsState};
ghost use Rattle.machine.specs.Frames.{Onward, left_of, stack};
ghost use Rattle.machine.specs.Phases.{GivesAgain, IsPlan, IsTold, Leads, MayFail, after_acts, deed_in, paired};
ghost use Rattle.machine.specs.Below.{IsBelow, StandsOver};
ghost use Rattle.machine.specs.Waiting.{next_of};
ghost use Rattle.runs.specs.Ending.{Over};
ghost use Rattle.state.specs.Dialogue.{replied};

use crate::advancing::advance;
use crate::closing::{closed, is_no_more};
use crate::frame::Frame;
use crate::phase::Phase;
use crate::running::Running;
use crate::turns::talk;
use crate::waits::{Waits, plainly};
use crate::watch::Watch;
use acts::{Act, Answer, NoMemory, fits};
use kept::Kept;
use state::{Leaf, Leave, State, Stop};
use std::alloc::Allocator;

/// Takes a session from where it stands, with the answer to its act, to the next act or the end.
pub fn forward<A: Allocator + Copy, T: Watch<A, Running<A>, State<A>, Leaf<A, Waits<A>>>>(
    alloc: A,
    running: &mut Running<A>,
    state: &mut State<A>,
    answers: &mut u64,
    phase: Phase<A>,
    answer: Option<Answer<A>>,
    watch: &mut T,
) -> Result<Phase<A>, NoMemory>
    ensures stands { (last : Onward) (s : Status) (p : Dialogue Over) → answers.old + 1 < 2 ^ 64 →
        FitsState state.old s → IsBelow running.old last →
        IsPlan last phase (stack running.old.frames) s answers.old p →
        IfOk result (λ now.
        StandsOver running.new now state.new answers.new
        (after_acts p (paired (deed_in phase) answer))) }
    ensures counts { answers.old + 1 < 2 ^ 64 → IfOk result (λ _.
        answers.new ≡ answers.old + length (paired (deed_in phase) answer)) }
    ensures told { IfOk result IsTold }
    ensures fails { IfErr result (λ _. MayFail phase answer) }
    ensures again { GivesAgain (λ now end. now ≡ end) phase result }
    ensures watched { T.told watch.old [] watch.new }
{
    match phase {
        Phase::Has(outcome) => advance(alloc, running, state, *answers, outcome, watch),
        Phase::Asks(act, waits) => match answer {
            Some(answer) => {
                *answers = answers.wrapping_add(1);
                answered(alloc, running, state, *answers, act, waits, answer, watch)
            }
            None => Ok(Phase::Asks(act, waits)),
        },
        Phase::Closes(act, closing) => match answer {
            Some(answer) => {
                *answers = answers.wrapping_add(1);
                Ok(closed(state, *answers, act, closing, answer))
            }
            None => Ok(Phase::Closes(act, closing)),
        },
        Phase::Over(end) => Ok(Phase::Over(end)),
        Phase::Refused(refusal) => Err(refusal),
    }
}

/// Continues with the answer to the act of a command, up to the next act or the end. Without an
/// answer, or with one that does not fit, the whole run stops.
fn answered<A: Allocator + Copy, T: Watch<A, Running<A>, State<A>, Leaf<A, Waits<A>>>>(
    alloc: A,
    running: &mut Running<A>,
    state: &mut State<A>,
    answers: u64,
    act: Act<A>,
    waits: Waits<A>,
    answer: Answer<A>,
    watch: &mut T,
) -> Result<Phase<A>, NoMemory>
    ensures stands { (last : Onward) (s : Status) → FitsState state.old s →
        IsBelow running.old last → IfOk result (λ phase.
        StandsOver running.new phase state.new answers
        (left_of last (replied (deed_of act) s (next_of waits (deed_of act)) (reply_of answer))
        (stack running.old.frames))) }
    ensures told { IfOk result IsTold }
    ensures watched { T.told watch.old [] watch.new }
{
    if is_no_more(&answer) {
        let stopped = Err(Leave::Stopped(Stop::NoMore));
        return advance(alloc, running, state, answers, stopped, watch);
    }
    if !fits(&act, &answer) {
        let stopped = Err(Leave::Stopped(Stop::BadAnswer));
        return advance(alloc, running, state, answers, stopped, watch);
    }
    let kept = &mut running.parsed.scripts;
    let leaf = go_on(alloc, &mut running.frames, kept, state, act, waits, answer)?;
    watch.leads(running, state, &leaf);
    match leaf {
        Leaf::Has(outcome) => advance(alloc, running, state, answers, outcome, watch),
        Leaf::Asks(act, waits) => Ok(Phase::Asks(act, waits)),
    }
}

/// Continues with an answer that fits, until what waits for it ends or asks its next act.
fn go_on<A: Allocator + Copy>(
    alloc: A,
    frames: &mut Vec<Frame<A>, A>,
    kept: &mut Kept<A>,
    state: &mut State<A>,
    act: Act<A>,
    waits: Waits<A>,
    answer: Answer<A>,
) -> Result<Leaf<A, Waits<A>>, NoMemory>
    ensures { (last : Onward) (s : Status) → FitsState state.old s →
        IfOk result (λ leaf. Leads last leaf (stack frames.new) state.new
        (left_of last (next_of waits (deed_of act) s (reply_of answer)) (stack frames.old))) }
{
    match waits {
        Waits::Command(waits) => {
            let leaf = commands::answered(alloc, state, act, waits, answer)?;
            Ok(plainly(leaf))
        }
        Waits::Turn(waits) => {
            let came = expects::waiting::answered(alloc, kept, state, act, waits, answer)?;
            talk(alloc, frames, kept, state, came)
        }
    }
}

//! The steps of a session between two acts.

ghost use Rattle.std.specs.Prelude.{◌<◌, [], IfOk};
ghost use Rattle.state.specs.Prelude.{Status, FitsState, outcome_of};
ghost use Rattle.machine.specs.Frames.{Onward, onward_of, stack};
ghost use Rattle.machine.specs.Below.{HasFewer, IsBelow, IsSettled, Settles, StandsOver};
ghost use Rattle.machine.specs.Phases.{IsTold};

use crate::closing::close_run;
use crate::phase::Phase;
use crate::running::{Handed, Running, hand_on};
use crate::starting::start;
use crate::waits::Waits;
use crate::watch::Watch;
use acts::NoMemory;
use state::{Leaf, Outcome, State};
use std::alloc::Allocator;

/// Where silent steps lead before a tick is taken, or up to one.
#[derive(Drop)]
pub enum Settled<A: Allocator> {
    /// To the next act, or to the end of the run.
    Stands(Phase<A>),
    /// A tick was taken, and this outcome is handed on next.
    Has(Outcome<A>),
}

/// Takes silent steps from the outcome of a part up to the next act or the end of the run, and
/// tells who watches.
pub fn advance<A: Allocator + Copy, T: Watch<A, Running<A>, State<A>, Leaf<A, Waits<A>>>>(
    alloc: A,
    running: &mut Running<A>,
    state: &mut State<A>,
    answers: u64,
    mut outcome: Outcome<A>,
    watch: &mut T,
) -> Result<Phase<A>, NoMemory>
    ensures stands { (last : Onward) (s : Status) → FitsState state.old s →
        IsBelow running.old last → IfOk result (λ phase.
        StandsOver running.new phase state.new answers
        (onward_of last (stack running.old.frames) s (outcome_of outcome))) }
    ensures told { IfOk result IsTold }
    ensures watched { T.told watch.old [] watch.new }
{
    'ticks: loop {
        match settle(alloc, running, state, answers, outcome, watch)? {
            Settled::Stands(phase) => return Ok(phase),
            Settled::Has(next) => outcome = next,
        }
    }
}

/// Takes silent steps until a tick is taken, an act waits for its answer, or the run ends.
fn settle<A: Allocator + Copy, T: Watch<A, Running<A>, State<A>, Leaf<A, Waits<A>>>>(
    alloc: A,
    running: &mut Running<A>,
    state: &mut State<A>,
    answers: u64,
    mut outcome: Outcome<A>,
    watch: &mut T,
) -> Result<Settled<A>, NoMemory>
    ensures settles { (last : Onward) (s : Status) → FitsState state.old s →
        IsBelow running.old last → IfOk result (λ settled.
        Settles settled running.new state.new answers
        (onward_of last (stack running.old.frames) s (outcome_of outcome))) }
    ensures told { IfOk result IsSettled }
    ensures fewer { IfOk result (λ settled. HasFewer settled state.new.left state.old.left) }
    ensures watched { T.told watch.old [] watch.new }
{
    let left = state.left;
    'commands: loop {
        let handed = hand_on(alloc, running, state, outcome, watch)?;
        let next = match handed {
            Handed::Over(last) => {
                return Ok(Settled::Stands(close_run(alloc, state, answers, last)?));
            }
            Handed::Has(next) => return Ok(Settled::Has(next)),
            Handed::Begins(next) => next,
        };
        watch.stands(running);
        let leaf = start(
            alloc,
            &mut running.frames,
            &mut running.parsed,
            state,
            next,
            watch,
        )?;
        watch.leads(running, state, &leaf);
        match leaf {
            Leaf::Asks(act, waits) => return Ok(Settled::Stands(Phase::Asks(act, waits))),
            Leaf::Has(next) => {
                if state.left < left {
                    return Ok(Settled::Has(next));
                }
                outcome = next;
            }
        }
    }
}

//! A whole run of a script in a world.

ghost use Rattle.std.specs.Prelude.{IfOk, IfErr};
ghost use Rattle.engine.specs.Watching.{BeganTold, RanTold};
ghost use Rattle.machine.specs.View.{ending_of, words_of};
ghost use Rattle.runs.specs.Run.{Began, Ran};

use crate::Lead;
use crate::session::{Session, Step};
use acts::{Limits, NoMemory, World};
use machine::{End, Running, Unwatched, Watch};
use state::State;
use std::alloc::Allocator;

/// Runs a script in a world, for a limited number of ticks; the first of its arguments is `argv0`.
/// Only a lack of memory stops a run without an end; what was done by then stays done.
pub fn run<A: Allocator + Copy, W: World<A>>(
    alloc: A,
    script: &[u8],
    args: &[Vec<u8, A>],
    limits: Limits,
    world: &mut W,
) -> Result<End<A>, NoMemory>
    // The acts and the end are those of the definition for the world's answers, and at every wait
    // each buffer holds at most its match_max.
    ensures ran { IfOk result (λ end.
        Ran W.step world.old world.new script.now (words_of args.now) limits.ticks
        (ending_of end)) }

    // Where memory was refused, the acts so far are a beginning of those of the definition.
    ensures began { IfErr result (λ _.
        Began W.step world.old world.new script.now (words_of args.now) limits.ticks) }
{
    run_watched(alloc, script, args, limits, world, &mut Unwatched)
}

/// The same, while someone watches it, who is told of each act with its answer and has no part in
/// the run.
pub fn run_watched<A: Allocator + Copy, W: World<A>, T: Watch<A, Running<A>, State<A>, Lead<A>>>(
    alloc: A,
    script: &[u8],
    args: &[Vec<u8, A>],
    limits: Limits,
    world: &mut W,
    watch: &mut T,
) -> Result<End<A>, NoMemory>
    // Who watches was told these acts with their answers, each once and in their order, and no
    // others.
    ensures ran { IfOk result (λ end.
        RanTold W.step T.told (world.old, watch.old) (world.new, watch.new)
        script.now (words_of args.now) limits.ticks (ending_of end)) }
    ensures began { IfErr result (λ _.
        BeganTold W.step T.told (world.old, watch.old) (world.new, watch.new)
        script.now (words_of args.now) limits.ticks) }
{
    watch.starts(script, args);
    let mut session = Session::start(alloc, script, args, limits)?;
    session.go_on(None, watch)?;
    'acts: loop {
        let answer = match session.step() {
            Step::Act(act) => {
                let answer = world.act(act);
                watch.answers(act, &answer);
                answer
            }
            Step::End(_) => break,
        };
        session.go_on(Some(answer), watch)?;
    }
    match session.into_end() {
        Some(end) => Ok(end),
        None => unreachable!(),
    }
}

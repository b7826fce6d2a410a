//! The product that the rows test.

use acts::{Limits, NoMemory, World};
use engine::{Session, Step, run};
use rowfiles::End;
use rowrules::{Breach, Call, Ended, Product, Way};
use std::alloc::{AllocError, Allocator, Global};
use std::io::Write;
use worlds::Counted;
use worlds::play::play;

/// The product: `run`, sessions and `play`.
#[derive(Clone, Copy)]
pub struct Rx;

impl Product for Rx {
    fn run<A: Allocator + Copy, W: World<A>>(
        &self,
        way: Way,
        log: Global,
        alloc: A,
        script: &[u8],
        args: &[Vec<u8, A>],
        limits: Limits,
        world: &mut W,
    ) -> Result<Ended, AllocError> {
        match way {
            Way::Run => match run(alloc, script, args, limits, world) {
                Ok(end) => Ok(Ended::End(end_in(log, &end)?)),
                Err(_) => Ok(Ended::NoMemory),
            },
            Way::Session => match Session::start(alloc, script, args, limits) {
                Ok(session) => perform(log, session, world),
                Err(_) => Ok(Ended::NoMemory),
            },
        }
    }

    fn play<A: Allocator + Copy, O: Write + Drop, E: Write + Drop>(
        &self,
        alloc: A,
        call: &Call<'_>,
        args: &[Vec<u8, A>],
        out: O,
        err: E,
    ) -> u8 {
        play(
            alloc,
            call.script,
            args,
            call.limits,
            b"record",
            call.record,
            Counted::new(out),
            Counted::new(err),
        )
    }
}

/// The state of a session whose acts have been performed.
#[derive(Clone, Copy)]
enum Stand {
    /// It has given its end, and gives it again.
    AtEnd,
    /// It has answered that memory was refused, and answers it again.
    Refused,
    Broken(Breach),
}

/// Performs each act that a session asks for, up to its end or to a refusal of memory.
fn perform<A: Allocator + Copy, W: World<A>>(
    log: Global,
    mut session: Session<A>,
    world: &mut W,
) -> Result<Ended, AllocError> {
    let stand = stand_of(&mut session, world);
    ended(log, stand, &session.into_end())
}

/// How the run of a session in this state ended, by the end that the session has.
fn ended<A: Allocator>(
    log: Global,
    stand: Stand,
    end: &Option<engine::End<A>>,
) -> Result<Ended, AllocError> {
    Ok(match (stand, end) {
        (Stand::AtEnd, Some(end)) => Ended::End(end_in(log, end)?),
        (Stand::AtEnd, None) => Ended::Broken(Breach::EndLost),
        (Stand::Refused, None) => Ended::NoMemory,
        (Stand::Refused, Some(_)) => Ended::Broken(Breach::EndsRefused),
        (Stand::Broken(breach), _) => Ended::Broken(breach),
    })
}

/// Performs each act that a session asks for, and gives the state of the session then.
fn stand_of<A: Allocator + Copy, W: World<A>>(session: &mut Session<A>, world: &mut W) -> Stand {
    let mut answer = None;
    for _ in 0..u64::MAX {
        match session.next(answer) {
            Ok(Step::Act(act)) => answer = Some(world.act(act)),
            Ok(Step::End(_)) => return stand_at_end(session),
            Err(_) => return stand_refused(session),
        }
    }
    Stand::Broken(Breach::Endless)
}

/// The state of a session that has given its end, found by asking it once more.
fn stand_at_end<A: Allocator + Copy>(session: &mut Session<A>) -> Stand {
    match session.next(None) {
        Ok(Step::Act(_)) => Stand::Broken(Breach::GoesOn),
        Ok(Step::End(_)) => Stand::AtEnd,
        Err(_) => Stand::Broken(Breach::GoesOn),
    }
}

/// The state of a session that has been refused memory, found by asking it once more.
fn stand_refused<A: Allocator + Copy>(session: &mut Session<A>) -> Stand {
    match session.next(None) {
        Ok(Step::Act(_)) => Stand::Broken(Breach::GoesOnRefused),
        Ok(Step::End(_)) => Stand::Broken(Breach::GoesOnRefused),
        Err(_) => Stand::Refused,
    }
}

/// A copy of an end, in memory of its own.
fn end_in<A: Allocator>(alloc: Global, end: &engine::End<A>) -> Result<End, AllocError> {
    Ok(match end {
        engine::End::Exit(number) => End::Exit(*number),
        engine::End::Error(text) => End::Error(Vec::from_slice(alloc, text)?),
        engine::End::Limit => End::Limit,
        engine::End::WriterFailed => End::WriterFailed,
        engine::End::BadAnswer(place) => End::BadAnswer(*place),
        engine::End::NoMore => End::NoMore,
    })
}

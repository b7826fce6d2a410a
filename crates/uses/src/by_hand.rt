//! A session that is asked for each act and given each answer.

use crate::telling::{tell_act, tell_end};
use crate::trouble::Trouble;
use acts::{Answer, Id, Limits, NoMemory};
use engine::{Session, Step};
use std::alloc::Global;
use std::io::Write;

/// A dialogue that answers a question.
const SCRIPT: &[u8] = b"log_user 0; spawn -noecho login; expect name:; send \"root\\n\"";

/// Starts the session and leads it to its end.
pub fn session<W: Write>(alloc: Global, out: &mut W) -> Result<(), Trouble> {
    let Some(limits) = Limits::new(1_000) else {
        return Ok(());
    };
    let mut session = start(alloc, limits)?;
    for turn in 0..5 {
        ask(alloc, out, b"by hand:", &mut session, answer(alloc, turn)?)?;
    }
    Ok(())
}

/// A session of the dialogue, of which nothing is done yet. It is wide, so it lies behind a
/// pointer.
fn start(alloc: Global, limits: Limits) -> Result<Box<Session<Global>, Global>, NoMemory> {
    Ok(Box::new(alloc, Session::start(alloc, SCRIPT, &[], limits)?)?)
}

/// The answer to the act before this turn, if there was one.
fn answer(alloc: Global, turn: u32) -> Result<Option<Answer<Global>>, NoMemory> {
    Ok(match turn {
        1 => Some(Answer::Started(1)),
        2 => Some(Answer::Arrive(Id(4), Vec::from_slice(alloc, b"name: ")?)),
        3 | 4 => Some(Answer::Done),
        _ => None,
    })
}

/// Asks a session for its next act by the answer to the last one, and writes it, or how it ends.
pub fn ask<W: Write>(
    alloc: Global,
    out: &mut W,
    who: &[u8],
    session: &mut Session<Global>,
    answer: Option<Answer<Global>>,
) -> Result<(), Trouble> {
    match session.next(answer)? {
        Step::Act(act) => tell_act(alloc, out, who, act),
        Step::End(end) => Ok(tell_end(out, who, end)?),
    }
}

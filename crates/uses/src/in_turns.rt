//! Two sessions that one loop serves in turns.

use crate::by_hand::ask;
use crate::trouble::Trouble;
use acts::{Answer, Id, Limits, NoMemory};
use engine::Session;
use std::alloc::Global;
use std::io::Write;

/// A dialogue that sends a text and shows what comes back.
const GREETS: &[u8] = b"spawn -noecho cat; send \"hi\\n\"; expect hi";

/// A dialogue that waits for a text which comes in two pieces, and shows nothing.
const ASKS: &[u8] = b"log_user 0; spawn -noecho login; expect -ex password:";

/// Serves the two sessions until each has given its end, and once more.
pub fn sessions<W: Write>(alloc: Global, out: &mut W) -> Result<(), Trouble> {
    let Some(limits) = Limits::new(1_000) else {
        return Ok(());
    };
    let mut greets = Session::start(alloc, GREETS, &[], limits)?;
    let mut asks = Session::start(alloc, ASKS, &[], limits)?;
    for turn in 0..7 {
        ask(alloc, out, b"greets:", &mut greets, greeting(alloc, turn)?)?;
        ask(alloc, out, b"asks:", &mut asks, asking(alloc, turn)?)?;
    }
    Ok(())
}

/// The answer to the act of the first dialogue before this turn, if there was one.
fn greeting(alloc: Global, turn: u32) -> Result<Option<Answer<Global>>, NoMemory> {
    Ok(match turn {
        1 => Some(Answer::Started(100)),
        2 | 4 | 5 => Some(Answer::Done),
        3 => Some(says(alloc, b"hi\n")?),
        _ => None,
    })
}

/// The answer to the act of the second dialogue before this turn, if there was one.
fn asking(alloc: Global, turn: u32) -> Result<Option<Answer<Global>>, NoMemory> {
    Ok(match turn {
        1 => Some(Answer::Started(101)),
        2 => Some(says(alloc, b"pass")?),
        3 => Some(says(alloc, b"word:")?),
        4 => Some(Answer::Done),
        _ => None,
    })
}

/// The answer by which the program of a dialogue says this text.
fn says(alloc: Global, text: &[u8]) -> Result<Answer<Global>, NoMemory> {
    Ok(Answer::Arrive(Id(4), Vec::from_slice(alloc, text)?))
}

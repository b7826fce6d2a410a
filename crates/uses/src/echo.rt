//! A world of its own, and a whole run in it.

use crate::telling::tell_end;
use crate::trouble::Trouble;
use acts::{Act, Answer, Id, Limits, World};
use engine::run;
use std::alloc::Global;
use std::io::Write;

/// A dialogue that sends a text, waits for it, and says which of two texts came.
const SCRIPT: &[u8] = b"spawn -noecho cat
    send \"good morning\\n\"
    expect morning { send_user \"it is morning\\n\" } evening { exit 1 }";

/// A world in which every program is an echo: what is sent to it comes back.
#[derive(Drop)]
struct Echo<'a, W> {
    alloc: Global,
    out: &'a mut W,
    heard: Option<(Id, Vec<u8, Global>)>,
}

impl<W: Write> World<Global> for Echo<'_, W> {
    ghost step = { λ _ _ _ _. Unit {0} };

    fn act(&mut self, act: &Act<Global>) -> Answer<Global> {
        match act {
            Act::Spawn(_, _) => Answer::Started(1),
            Act::Send(id, text) => self.hear(*id, text.as_slice()),
            Act::Wait { .. } => self.say(),
            Act::Out(text) => self.show(text.as_slice()),
            _ => Answer::Done,
        }
    }
}

impl<W: Write> Echo<'_, W> {
    /// Keeps a text that was sent, and the id that it was sent to.
    fn hear(&mut self, id: Id, text: &[u8]) -> Answer<Global> {
        match Vec::from_slice(self.alloc, text) {
            Ok(text) => {
                self.heard = Some((id, text));
                Answer::Done
            }
            Err(_) => Answer::NoMore,
        }
    }

    /// Answers with the text that was kept; where none was, the timer runs out.
    fn say(&mut self) -> Answer<Global> {
        match self.heard.take() {
            Some((id, text)) => Answer::Arrive(id, text),
            None => Answer::TimedOut,
        }
    }

    /// Writes what the script shows.
    fn show(&mut self, text: &[u8]) -> Answer<Global> {
        match self.out.write_all(text) {
            Ok(()) => Answer::Done,
            Err(_) => Answer::Failed(0),
        }
    }
}

/// Runs the script in the world, and writes how it ends.
pub fn whole_run<W: Write>(alloc: Global, out: &mut W) -> Result<(), Trouble> {
    let Some(limits) = Limits::new(1_000) else {
        return Ok(());
    };
    let mut world = Echo {
        alloc,
        out,
        heard: None,
    };
    let end = run(alloc, SCRIPT, &[], limits, &mut world)?;
    Ok(tell_end(world.out, b"echo:", &end)?)
}

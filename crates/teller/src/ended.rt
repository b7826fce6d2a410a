//! The codes that an error has ended, one after the other, from the innermost on.

use crate::telling::Teller;
use acts::NoMemory;
use code::{Entry, Instruction};
use expects::turn::Turn;
use kept::Kept;
use machine::frame::Frame;
use machine::{Run, Running};
use state::{Code, Leave, Outcome};
use std::alloc::Allocator;
use std::rc::Rc;

/// A code that has come to a place: it waits there for the outcome of a command, or it has ended
/// right before it.
#[derive(Drop)]
pub(crate) struct Placed<A: Allocator> {
    pub code: Rc<Vec<Instruction<A>, A>, A>,
    pub place: usize,
    /// The text of the code, where that is known.
    pub text: Option<Vec<u8, A>>,
}

/// A code that an error has ended, and with which code.
#[derive(Drop)]
pub(crate) struct Ended<A: Allocator> {
    pub placed: Placed<A>,
    with: Code,
}

impl<A: Allocator + Copy> Teller<A> {
    /// Takes note of what a session has still to do, as something begins next: no error has ended
    /// anything that is still around it.
    ///
    /// # Errors
    /// `NoMemory`.
    pub fn stands(&mut self, running: &Running<A>) -> Result<(), NoMemory> {
        self.ended.clear();
        self.in_turn = has_turn(&running.frames);
        let mut count = 0;
        for part in &running.parts {
            self.in_turn = self.in_turn || has_turn(&part.frames);
            count = self.wait_at(count, &part.code, &running.parsed.scripts)?;
        }
        count = self.wait_at(count, &running.code, &running.parsed.scripts)?;
        self.waiting.truncate(count);
        Ok(())
    }

    /// Takes note of a code that waits within this many others, if there is one, and says how many
    /// wait then. The text of a code is asked for where the code has not waited there before: it
    /// may be kept no longer later.
    fn wait_at(
        &mut self,
        count: usize,
        run: &Option<Run<A>>,
        kept: &Kept<A>,
    ) -> Result<usize, NoMemory> {
        let Some(run) = run else {
            return Ok(count);
        };
        if !self.has_waited(count, run) {
            let placed = Placed {
                code: run.code.clone()?,
                place: run.spot.place,
                text: self.kept_text(&run.code, kept)?,
            };
            self.waiting.truncate(count);
            self.waiting.push(placed)?;
        }
        if let Some(one) = self.waiting.get_mut(count) {
            one.place = run.spot.place;
        }
        Ok(count.saturating_add(1))
    }

    /// Whether this is the code that has waited within this many others.
    fn has_waited(&self, count: usize, run: &Run<A>) -> bool {
        match self.waiting.get(count) {
            Some(one) => Rc::ptr_eq(&one.code, &run.code),
            None => false,
        }
    }

    /// The text under which a code is kept, if it is.
    fn kept_text(
        &self,
        code: &Rc<Vec<Instruction<A>, A>, A>,
        kept: &Kept<A>,
    ) -> Result<Option<Vec<u8, A>>, NoMemory> {
        match kept.text_of(code) {
            Some(text) => Ok(Some(Vec::from_slice(self.alloc, text)?)),
            None => Ok(None),
        }
    }

    /// Takes note that a code has ended right before a place, and with which outcome. Where that
    /// is an error, and it has waited there, it passes on the error that has ended the code within
    /// it, if one has; else the error is its own. These scripts are kept by their texts.
    ///
    /// # Errors
    /// `NoMemory`.
    pub fn ends(
        &mut self,
        code: &Rc<Vec<Instruction<A>, A>, A>,
        place: usize,
        kept: &Kept<A>,
        outcome: &Outcome<A>,
    ) -> Result<(), NoMemory> {
        let waited = self.take_waiting(code, place);
        let Some(with) = self.error_in(outcome) else {
            self.ended.clear();
            return Ok(());
        };
        if waited.is_none() || self.ended.last().is_some_and(|last| last.with != with) {
            self.ended.clear();
        }
        let placed = match waited {
            Some(placed) => placed,
            None => Placed {
                code: code.clone()?,
                place,
                text: self.kept_text(code, kept)?,
            },
        };
        self.ended.push(Ended { placed, with })?;
        Ok(())
    }

    /// With which code an outcome ends a run by an error, if it does. What stops a run leaves no
    /// error behind that was written.
    fn error_in(&mut self, outcome: &Outcome<A>) -> Option<Code> {
        match outcome {
            Ok(_) | Err(Leave::Coded(Code::Return, _)) => None,
            Err(Leave::Coded(code, _)) => Some(*code),
            Err(Leave::Stopped(_)) => {
                self.report.clear();
                None
            }
        }
    }

    /// Takes out the code that has waited at this place, where it has, and drops those within it.
    fn take_waiting(
        &mut self,
        code: &Rc<Vec<Instruction<A>, A>, A>,
        place: usize,
    ) -> Option<Placed<A>> {
        let at = self
            .waiting
            .iter()
            .rposition(|one| one.place == place && Rc::ptr_eq(&one.code, code))?;
        self.waiting.truncate(at.saturating_add(1));
        self.waiting.pop()
    }
}

/// Whether one of the frames is that of a turn.
fn has_turn<A: Allocator>(frames: &[Frame<A>]) -> bool {
    for frame in frames {
        if matches!(frame, Frame::Turn(_)) {
            return true;
        }
    }
    false
}

/// The turn whose body stands on top of the frames and has not begun.
pub(crate) fn chosen<A: Allocator>(frames: &[Frame<A>]) -> Option<&Turn<A>> {
    match frames {
        [.., Frame::Turn(turn), Frame::Code(Entry::Made(_), _)] => Some(turn),
        _ => None,
    }
}

/// Whether the words of an argument in braces are substituted next.
pub(crate) fn is_argument_next<A: Allocator>(frames: &[Frame<A>]) -> bool {
    matches!(frames.last(), Some(Frame::Code(Entry::Argument(_), _)))
}

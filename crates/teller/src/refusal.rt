//! Why the world refused an act, in the words of the system.

use crate::telling::Teller;
use acts::{Answer, NoMemory};
use machine::End;
use std::alloc::Allocator;
use std::io;

/// An act that was refused, or a write that failed.
#[derive(Clone, Copy, Debug)]
pub struct Refusal {
    /// The number of the act, counted from 1.
    pub act: u64,
    /// The error of the system.
    pub why: io::Error,
}

impl<A: Allocator + Copy> Teller<A> {
    /// Takes note that the act of this number was answered.
    pub(crate) fn note_answer(&mut self, answer: &Answer<A>, number: u64) {
        self.answered = Some(number);
        if matches!(answer, Answer::Failed(_)) {
            self.failed_at = Some(number);
        }
    }

    /// Takes note of what a command has come to. An error that comes right after an answer was led
    /// to by that act.
    pub(crate) fn note_lead(&mut self, is_error: bool) {
        let answered = self.answered.take();
        self.failed_at = if is_error { answered } else { None };
    }

    /// Takes note of how the run ended, and of what the world refused last.
    pub fn note_end(&mut self, ended: &Result<End<A>, NoMemory>, refusal: Option<Refusal>) {
        self.refusal = refusal;
        self.is_cut = matches!(ended, Ok(End::WriterFailed));
    }

    /// Tells in the words of the system why the act was refused that ended the run, where that is
    /// known: the last one before the error, or the write that failed.
    ///
    /// # Errors
    /// `NoMemory`.
    pub(crate) fn tell_refusal(&self, out: &mut Vec<u8, A>) -> Result<(), NoMemory> {
        match self.refusal {
            Some(refusal) if Some(refusal.act) == self.failed_at => {
                let words = format!(in self.alloc; "{}", refusal.why)?;
                self.tell(out, None, b"the system says", words.as_bytes())
            }
            Some(_) | None => Ok(()),
        }
    }
}

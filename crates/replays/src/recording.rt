//! The answers of a recorded run.

ghost use Rattle.std.specs.Prelude.{◌≡◌, ◌+◌, ◌^◌, ◌<◌, map};
ghost use Rattle.acts.specs.Deed.{reply_of};
ghost use Rattle.records.specs.Entry.{note_of, plain_note};
ghost use Rattle.replays.specs.Left.{left_len};

use crate::answerer::Answerer;
use crate::due::is_due;
use crate::left::Left;
use acts::{Act, Answer};
use records::Entry;
use std::alloc::Allocator;

/// The part of a recorded run that was not replayed yet: its answers, the first one first. Where
/// the entry of an answer states the rows of a wait, only a wait with these rows gets the answer;
/// any other act differs from the run that was recorded, and from that act on there are no more
/// answers.
pub struct Recording<A: Allocator> {
    left: Left<A>,
    answered: u64,
    differs: Option<u64>,
    ghost counted: { answered + left_len left < 2 ^ 64 },
}

impl<A: Allocator> Drop for Recording<A> {
    fn drop(self) {
        let Recording {
            left: _,
            answered: _,
            differs: _,
        } = self;
    }
}

impl<A: Allocator> Recording<A> {
    ghost use Rattle.replays.specs.Recording.{recorded_in, whole};

    /// A recorded run of these answers, without rows.
    pub fn of_answers(answers: Vec<Answer<A>, A>) -> Recording<A>
        ensures { recorded_in result ≡ whole (map plain_note (map reply_of answers.items)) }
    {
        Recording {
            left: Left::Answers(answers.into_iter()),
            answered: 0,
            differs: None,
        }
    }

    /// A recorded run of these entries.
    pub fn of_entries(entries: Vec<Entry<A>, A>) -> Recording<A>
        ensures { recorded_in result ≡ whole (map note_of entries.items) }
    {
        Recording {
            left: Left::Entries(entries.into_iter()),
            answered: 0,
            differs: None,
        }
    }

    /// The number of the act that differed from the run that was recorded, counted from 1; `None`
    /// if none did.
    pub fn differs(&self) -> Option<u64>
        ensures { result ≡ (recorded_in self.now).differs }
    {
        self.differs
    }
}

impl<A: Allocator> Answerer<A> for Recording<A> {
    ghost use Rattle.replays.specs.Recording.{Answers, recorded_in};

    ghost answers = { λ before act reply after.
        Answers (recorded_in before) act reply (recorded_in after) };

    fn answer(&mut self, act: &Act<A>) -> Answer<A> {
        if self.differs.is_some() {
            return Answer::NoMore;
        }
        let Some(next) = self.left.next() else {
            return Answer::NoMore;
        };
        if !is_due(&next.rows, act) {
            self.differs = Some(self.answered + 1);
            return Answer::NoMore;
        }
        self.answered += 1;
        next.into_answer()
    }
}

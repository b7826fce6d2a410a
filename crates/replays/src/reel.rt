//! A recorded run that is read as it is replayed.

ghost use Rattle.std.specs.Prelude.{◌≡◌, ◌+◌, ◌^◌, ◌<◌, ℕ, List, IfErr, IfOk, None};
ghost use Rattle.acts.specs.Deed.{deed_of, reply_of};
ghost use Rattle.records.specs.Entry.{AreLinesOf, note_of};

use crate::answerer::Answerer;
use crate::due::is_due;
use crate::halt::Halt;
use acts::{Act, Answer};
use records::{Entry, EntryReader, Source};
use std::alloc::Allocator;

/// A recorded run that is read as it is replayed, an entry for each act, so that it takes no more
/// memory the longer it is. It answers as a `Recording` does, as long as entries are read. From
/// the first entry on that can't be read there are no more answers, and `halt` says why.
pub struct Reel<A: Allocator, S> {
    entries: EntryReader<A, S>,
    /// How many entries are left.
    left: u64,
    answered: u64,
    halt: Option<Halt>,
    ghost counted: { answered + left < 2 ^ 64 },
}

impl<A: Allocator, S: Drop> Drop for Reel<A, S> {
    fn drop(self) {
        let Reel {
            entries: _,
            left: _,
            answered: _,
            halt: _,
        } = self;
    }
}

impl<A: Allocator + Copy, S: Source + Drop> Reel<A, S> {
    ghost use Rattle.records.specs.Reading.{ReadsOn, place_of};
    ghost use Rattle.replays.specs.Reel.{GivesOne, GoesOn, IsHalt, begun, reeled_in};

    /// A recorded run of so many entries, whose header was read.
    pub fn new(entries: EntryReader<A, S>, count: u64) -> Reel<A, S>
        ensures { reeled_in result ≡ begun (place_of entries) count }
    {
        Reel {
            entries,
            left: count,
            answered: 0,
            halt: None,
        }
    }

    /// The answer to an act, where the run goes on so far.
    fn answer_next(&mut self, act: &Act<A>) -> Answer<A>
        requires { self.old.halt ≡ None }
        ensures { GoesOn S.gives S.gives_up S.most (reeled_in self.old) (deed_of act.now)
            (reply_of result) (reeled_in self.new) }
    {
        let Some(left) = self.left.checked_sub(1) else {
            return Answer::NoMore;
        };
        match self.next() {
            Ok(entry) => {
                self.left = left;
                self.give(entry, act)
            }
            Err(halt) => {
                self.halt = Some(halt);
                Answer::NoMore
            }
        }
    }

    /// Reads the next entry, or says why it can't be read.
    #[tactic(auto, using(crate::proofs::Halts::stopped_halts))]
    fn next(&mut self) -> Result<Entry<A>, Halt>
        ensures kept { (self.new.left ≡ self.old.left) × (self.new.answered ≡ self.old.answered)
            × (self.new.halt ≡ self.old.halt) }
        ensures next { IfOk result (λ entry. (front : List ℕ)
            × AreLinesOf (note_of entry).rows (note_of entry).reply front
            × ReadsOn S.gives S.most (place_of self.old.entries) front
            (place_of self.new.entries)) }
        ensures halts { IfErr result (IsHalt S.gives S.gives_up S.most
            (place_of self.old.entries) (place_of self.new.entries)) }
    {
        match self.entries.next(0) {
            Ok(Some(entry)) => Ok(entry),
            Ok(None) => Err(Halt::Unread),
            Err(fault) => Err(Halt::of_fault(fault)),
        }
    }

    /// The answer of the entry that is due, or none to an act that it does not answer.
    fn give(&mut self, entry: Entry<A>, act: &Act<A>) -> Answer<A>
        requires halt { self.old.halt ≡ None }
        requires counted { self.old.answered + 1 + self.old.left < 2 ^ 64 }
        ensures kept { (self.new.entries ≡ self.old.entries) × (self.new.left ≡ self.old.left) }
        ensures gives { GivesOne (note_of entry) self.old.answered (deed_of act.now)
            (reply_of result) (reeled_in self.new) }
    {
        let number = self.answered + 1;
        if !is_due(&entry.rows, act) {
            self.halt = Some(Halt::Differs(number));
            return Answer::NoMore;
        }
        self.answered = number;
        entry.into_answer()
    }

    /// Why there are no more answers, though entries are left; `None` where the run went on so far.
    pub fn halt(&self) -> Option<Halt>
        ensures { result ≡ (reeled_in self.now).halt }
    {
        self.halt
    }
}

impl<A: Allocator + Copy, S: Source + Drop> Answerer<A> for Reel<A, S> {
    ghost use Rattle.replays.specs.Reel.{Reels, reeled_in};

    ghost answers = { λ before act reply after.
        Reels S.gives S.gives_up S.most (reeled_in before) act reply (reeled_in after) };

    fn answer(&mut self, act: &Act<A>) -> Answer<A> {
        match self.halt {
            Some(_) => Answer::NoMore,
            None => self.answer_next(act),
        }
    }
}

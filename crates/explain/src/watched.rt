//! Stories: each watches a run, counts the acts that it is told, and has the run told.

ghost use Rattle.std.specs.Prelude.{◌≡◌, ◌||◌, ℕ, List, [], true, false, IsOkAnd};
ghost use Rattle.explain.specs.Stories.{GoesOn, untold};
ghost use Rattle.explain.specs.View.{told_of};
ghost use Rattle.records.specs.Sink.{Takes};

use crate::refusals::{Heeded, run_heeded};
use acts::{Act, Answer, Limits, NoMemory, World};
use records::{Sink, put_all};
use std::alloc::Allocator;
use std::rc::Rc;
use tcltext::Value;
use teller::{Detail, Instruction, Kept, Outcome, Teller};
use worlds::recorded::{Refuses, Runner};
use worlds::{End, Lead, Running, State, Watch};

/// The story of a run, which is told to a sink line by line as the run goes.
#[derive(Drop)]
pub struct Story<A: Allocator, S: Sink> {
    /// How many acts it was told, each with its answer.
    acts: u64,
    detail: Detail,
    /// Whether memory was refused, after which nothing is told.
    is_lost: bool,
    sink: S,
    teller: Teller<A>,
}

impl<A: Allocator + Copy, S: Sink> Story<A, S> {
    /// A story of which nothing is told yet. The first `commands` bytes of the script are the texts
    /// of `-c`. Takes no memory.
    pub fn new(alloc: A, sink: S, detail: Detail, commands: usize) -> Story<A, S>
        ensures { told_of result ≡ untold detail sink }
    {
        Story {
            acts: 0,
            detail,
            is_lost: false,
            sink,
            teller: Teller::new(alloc, commands),
        }
    }

    /// Whether the story could not be told to its end: its sink failed, or memory was refused.
    pub fn failed(&self) -> bool
        ensures { result ≡ (self.now.is_lost || S.has_failed self.now.sink) }
    {
        self.is_lost || self.sink.failed()
    }

    /// Tells the end of the story: what came after a wait was over, the error that ended the run,
    /// the wait that was open, and the status. Where no run began, there is nothing to tell.
    pub fn end(&mut self, status: u8)
        ensures { GoesOn S.adds S.has_failed (told_of self.old) [] (told_of self.new) }
    {
        let told = self.teller.end(status);
        self.tell(told);
    }

    /// Takes note of whether memory was refused.
    fn note(&mut self, noted: Result<(), NoMemory>)
        ensures { GoesOn S.adds S.has_failed (told_of self.old) [] (told_of self.new) }
    {
        if noted.is_err() {
            self.is_lost = true;
        }
    }

    /// Tells these lines, unless the story is lost.
    fn tell(&mut self, told: Result<Vec<u8, A>, NoMemory>)
        ensures same { (self.new.acts ≡ self.old.acts) × (self.new.detail ≡ self.old.detail) }
        ensures lost { self.old.is_lost ≡ true → self.new.is_lost ≡ true }
        ensures tells { (text : List ℕ)
            × Takes S.adds S.has_failed self.old.sink text self.new.sink
            × (self.new.is_lost ≡ false → IsOkAnd told (λ lines. lines.items ≡ text)) }
    {
        let Ok(lines) = told else {
            self.is_lost = true;
            return;
        };
        if !self.is_lost {
            put_all(&mut self.sink, &lines);
        }
    }
}

impl<A: Allocator + Copy, S: Sink> Watch<A, Running<A>, State<A>, Lead<A>> for Story<A, S> {
    ghost use Rattle.explain.specs.Stories.{GoesOn, joined, rests};
    ghost use Rattle.explain.specs.View.{told_of};

    // Its lines tell each act with its answer, once and in order.
    ghost told = { λ before acts after.
        GoesOn S.adds S.has_failed (told_of before) acts (told_of after) };

    ghost stays = { λ x. rests S.adds S.has_failed (told_of x) };

    ghost joins = { λ x y z h k.
        joined S.adds S.has_failed (told_of x) (told_of y) (told_of z) h k };

    fn starts(&mut self, script: &[u8], args: &[Vec<u8, A>]) {
        let noted = self.teller.starts(script, args);
        self.note(noted);
    }

    fn stands(&mut self, running: &Running<A>) {
        let noted = self.teller.stands(running);
        self.note(noted);
    }

    fn begins(&mut self, words: &[Value<A>]) {
        let noted = self.teller.begins(words);
        self.note(noted);
    }

    fn says(&mut self, words: &[Value<A>]) {
        let noted = self.teller.says(words);
        self.note(noted);
    }

    fn leads(&mut self, running: &Running<A>, state: &State<A>, leaf: &Lead<A>) {
        let told = self.teller.leads(running, state, leaf, self.detail);
        self.tell(told);
    }

    fn ends(
        &mut self,
        code: &Rc<Vec<Instruction<A>, A>, A>,
        place: usize,
        kept: &Kept<A>,
        outcome: &Outcome<A>,
    ) {
        let noted = self.teller.ends(code, place, kept, outcome);
        self.note(noted);
    }

    fn answers(&mut self, act: &Act<A>, answer: &Answer<A>) {
        self.acts = self.acts.saturating_add(1);
        let told = self.teller.answers(act, answer, self.acts, self.detail);
        self.tell(told);
    }
}

impl<A: Allocator + Copy, S: Sink> Runner<A> for Story<A, S> {
    ghost use Rattle.explain.specs.Stories.{GoesOn, rests};
    ghost use Rattle.explain.specs.View.{told_of};

    // Its lines tell each act with its answer, once and in order.
    ghost told = { λ before acts after.
        GoesOn S.adds S.has_failed (told_of before) acts (told_of after) };

    ghost stays = { λ x. rests S.adds S.has_failed (told_of x) };

    fn run<W: World<A> + Refuses<A>, M: Sink>(
        &mut self,
        alloc: A,
        script: &[u8],
        args: &[Vec<u8, A>],
        limits: Limits,
        world: &mut W,
        made: &mut Option<M>,
    ) -> Result<End<A>, NoMemory> {
        let mut heeded = Heeded {
            world,
            acts: 0,
            refusal: None,
        };
        let ended = run_heeded(alloc, script, args, limits, &mut heeded, made, self);
        self.teller.note_end(&ended, heeded.refusal);
        ended
    }
}

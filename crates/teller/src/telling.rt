//! The lines of a story, as they are told.

ghost use Rattle.std.specs.Prelude.{◌≡◌, ◌++◌, ℕ, List, [], Some, IfOk, OnOk, codes, is_some};
ghost use Rattle.acts.specs.Deed.{deed_of, reply_of};
ghost use Rattle.acts.specs.Id.{id_text};
ghost use Rattle.story.specs.Line.{line};
ghost use Rattle.teller.specs.Told.{IsDone, IsHeard, IsTold, over_text, sized};
ghost use Rattle.teller.specs.declared.telling.Detail.TheVariants.{Brief, Whole};

use crate::branches::Branches;
use crate::choice::keyword_for;
use crate::ended::{Ended, Placed};
use crate::lines::Lines;
use crate::refusal::Refusal;
use crate::shown::push_command;
use crate::spots::Spot;
use crate::told::{is_wait, may_be_unasked, push_act, push_answer, push_bytes, push_id};
use crate::vain::{Vains, push_over};
use crate::wait::{Over, Wait};
use acts::decimal::push_decimal;
use acts::{Act, Answer, Id, NoMemory};
use memchr::memchr;
use std::alloc::Allocator;
use story::{Heard, push_line};

/// The status of a run that an error ended.
const ERROR_STATUS: u8 = 1;

/// How much of a run is told.
#[derive(Clone, Copy, Debug, PartialEq, Eq)]
pub enum Detail {
    /// Each act, each arrival, each choice.
    Whole,
    /// What led to the end: the last wait that sought in vain, and the error.
    Brief,
}

/// A command whose act waits for its answer: where it stands, if that is known.
#[derive(Clone, Copy)]
pub(crate) struct Asker {
    pub spot: Option<Spot>,
}

/// One who tells the story of a run line by line as the run goes: each call gives the lines of what
/// happened, which may be none. After an `Err` the story has a gap.
pub struct Teller<A: Allocator> {
    pub(crate) alloc: A,
    /// How many bytes of the script are the texts of `-c`.
    pub(crate) commands: usize,
    pub(crate) script: Vec<u8, A>,
    pub(crate) lines: Option<Lines<A>>,
    pub(crate) heard: Heard<A>,
    pub(crate) branches: Branches<A>,
    /// Whether the words that were read last are those of branches that stand.
    pub(crate) stands: bool,
    pub(crate) wait: Option<Wait<A>>,
    /// The command whose act waits for its answer, where the whole is told.
    pub(crate) asked: Option<Asker>,
    pub(crate) vains: Vains<A>,
    /// The codes that wait for what began last, the outermost first.
    pub(crate) waiting: Vec<Placed<A>, A>,
    /// Whether what began last did so within a turn of `expect`.
    pub(crate) in_turn: bool,
    /// The codes that an error has ended since, the innermost first.
    pub(crate) ended: Vec<Ended<A>, A>,
    /// What was written to standard error last: where an error ended the run, its text.
    pub(crate) report: Vec<u8, A>,
    /// The number of the act that was answered last, until something has come of that.
    pub(crate) answered: Option<u64>,
    /// The number of the act whose answer led to the last error, or that failed as a write.
    pub(crate) failed_at: Option<u64>,
    /// What the world refused last.
    pub(crate) refusal: Option<Refusal>,
    /// Whether a write that failed ended the run.
    pub(crate) is_cut: bool,
}

impl<A: Allocator> Drop for Teller<A> {
    fn drop(self) {
        let Teller {
            alloc: _,
            commands: _,
            script: _,
            lines: _,
            heard: _,
            branches: _,
            stands: _,
            wait: _,
            asked: _,
            vains: _,
            waiting: _,
            in_turn: _,
            ended: _,
            report: _,
            answered: _,
            failed_at: _,
            refusal: _,
            is_cut: _,
        } = self;
    }
}

impl<A: Allocator + Copy> Teller<A> {
    /// One who has told nothing yet. The first `commands` bytes of the script are the texts
    /// of `-c`. Takes no memory.
    pub fn new(alloc: A, commands: usize) -> Teller<A> {
        Teller {
            alloc,
            commands,
            script: Vec::new(alloc),
            lines: None,
            heard: Heard::new(alloc),
            branches: Branches::new(alloc),
            stands: false,
            wait: None,
            asked: None,
            vains: Vains::new(alloc),
            waiting: Vec::new(alloc),
            in_turn: false,
            ended: Vec::new(alloc),
            report: Vec::new(alloc),
            answered: None,
            failed_at: None,
            refusal: None,
            is_cut: false,
        }
    }

    /// Tells an act, the one of this number, with its answer, and remembers what came.
    ///
    /// # Errors
    /// `NoMemory`.
    pub fn answers(
        &mut self,
        act: &Act<A>,
        answer: &Answer<A>,
        number: u64,
        detail: Detail,
    ) -> Result<Vec<u8, A>, NoMemory>
        // Where the whole is told, an act has one line: a wait that of its answer, and another act
        // unless it is of a kind that is also done unasked, and no command asked for it.
        ensures whole { detail ≡ Whole → IfOk result (λ told. IsTold (is_some self.old.asked)
            (deed_of act.now) (reply_of answer.now) told.items) }
        ensures brief { detail ≡ Brief → IfOk result (λ told. told.items ≡ []) }
    {
        let asked = self.asked.take();
        if let Act::Err(text) = act {
            self.see_report(text)?;
        }
        self.note_answer(answer, number);
        self.hear(answer)?;
        match detail {
            Detail::Whole => self.line_of(asked, act, answer),
            Detail::Brief => Ok(Vec::new(self.alloc)),
        }
    }

    /// Tells the end of the story: what came after a wait was over, the error that ended the run,
    /// the wait that was open, and the status. Where no run began, there is nothing to tell.
    ///
    /// # Errors
    /// `NoMemory`.
    pub fn end(&mut self, status: u8) -> Result<Vec<u8, A>, NoMemory> {
        let mut out = Vec::new(self.alloc);
        if self.lines.is_some() {
            self.tell_end(&mut out, status)?;
        }
        Ok(out)
    }

    /// Tells the end of the story.
    fn tell_end(&mut self, out: &mut Vec<u8, A>, status: u8) -> Result<(), NoMemory> {
        if let Some(wait) = self.wait.take() {
            self.tell_command(out, wait.spot, b"was waiting when the run was over")?;
        }
        self.tell_later(out)?;
        if status == ERROR_STATUS {
            self.tell_raised(out)?;
        }
        if self.is_cut {
            self.tell_refusal(out)?;
        }
        let mut detail = Vec::new(self.alloc);
        detail.extend_from_slice(b"status ")?;
        push_decimal(&mut detail, u64::from(status))?;
        push_line(out, b"", b"end", &detail)
    }

    /// Tells one line: where a command stands, and the command, or nothing of it; and what
    /// happened.
    pub(crate) fn tell(
        &self,
        out: &mut Vec<u8, A>,
        spot: Option<Spot>,
        what: &[u8],
        detail: &[u8],
    ) -> Result<(), NoMemory>
        ensures { OnOk result ((place : List ℕ)
            × (out.new.items ≡ out.old.items ++ line place what.now detail.now)) }
    {
        let place = self.place(spot)?;
        push_line(out, &place, what, detail)
    }

    /// Tells one line of a command: where it stands, its words, and what happened.
    pub(crate) fn tell_command(
        &self,
        out: &mut Vec<u8, A>,
        spot: Option<Spot>,
        detail: &[u8],
    ) -> Result<(), NoMemory>
        ensures { OnOk result ((place command : List ℕ)
            × (out.new.items ≡ out.old.items ++ line place command detail.now)) }
    {
        let mut what = Vec::new(self.alloc);
        if let Some(spot) = spot {
            push_command(&mut what, spot.text(&self.script))?;
        }
        self.tell(out, spot, &what, detail)
    }

    /// How a place is written, or nothing where it is not known.
    pub(crate) fn place(&self, spot: Option<Spot>) -> Result<Vec<u8, A>, NoMemory> {
        let mut place = Vec::new(self.alloc);
        if let (Some(spot), Some(lines)) = (spot, &self.lines) {
            lines.push(&mut place, spot.start)?;
        }
        Ok(place)
    }

    /// Remembers what an answer says of a wait.
    fn hear(&mut self, answer: &Answer<A>) -> Result<(), NoMemory> {
        match answer {
            Answer::Arrive(id, bytes) => return self.arrive(*id, bytes),
            Answer::Ended(id) => self.end_wait(Over::End(*id)),
            Answer::TimedOut => self.end_wait(Over::Time),
            Answer::Done
            | Answer::Failed(_)
            | Answer::Started(_)
            | Answer::Refused
            | Answer::Exited(_)
            | Answer::NoMore => {}
        }
        Ok(())
    }

    /// Remembers bytes that came.
    fn arrive(&mut self, id: Id, bytes: &[u8]) -> Result<(), NoMemory> {
        let Some(wait) = &self.wait else {
            return Ok(());
        };
        let max = wait.max(id);
        let cause = wait.cause();
        let drops_nulls = wait.awaited(id).is_some_and(|one| one.drops_nulls);
        if !drops_nulls || memchr(0, bytes).is_none() {
            return self.heard.arrive(id, bytes, max, cause);
        }
        let mut kept = Vec::new(self.alloc);
        for part in bytes.split(|byte| *byte == 0) {
            kept.extend_from_slice(part)?;
        }
        self.heard.arrive(id, &kept, max, cause)
    }

    /// Notes how the wait in progress is over.
    fn end_wait(&mut self, over: Over) {
        if let Some(wait) = &mut self.wait {
            wait.over = Some(over);
        }
    }

    /// The line of an act with its answer, or nothing where no command asked for it and it may be
    /// done unasked.
    fn line_of(
        &self,
        asked: Option<Asker>,
        act: &Act<A>,
        answer: &Answer<A>,
    ) -> Result<Vec<u8, A>, NoMemory>
        ensures { IfOk result (λ told. IsTold (is_some asked) (deed_of act.now)
            (reply_of answer.now) told.items) }
    {
        if may_be_unasked(act) && asked.is_none() {
            return Ok(Vec::new(self.alloc));
        }
        if is_wait(act) {
            return self.heard_line(answer);
        }
        self.done_line(asked, act, answer)
    }

    /// The line of an act that is no wait, with its answer.
    fn done_line(
        &self,
        asked: Option<Asker>,
        act: &Act<A>,
        answer: &Answer<A>,
    ) -> Result<Vec<u8, A>, NoMemory>
        ensures { IfOk result (λ told. IsDone (deed_of act.now) (reply_of answer.now) told.items) }
    {
        let mut detail = Vec::new(self.alloc);
        push_act(&mut detail, act)?;
        push_answer(&mut detail, answer)?;
        let mut out = Vec::new(self.alloc);
        self.tell_command(&mut out, asked.and_then(|one| one.spot), &detail)?;
        Ok(out)
    }

    /// The line of an answer to a wait.
    fn heard_line(&self, answer: &Answer<A>) -> Result<Vec<u8, A>, NoMemory>
        ensures { IfOk result (λ told. IsHeard (reply_of answer.now) told.items) }
    {
        match answer {
            Answer::Arrive(id, bytes) => self.arrival_line(*id, bytes),
            Answer::Ended(id) => self.over_line(Over::End(*id)),
            Answer::TimedOut => self.over_line(Over::Time),
            Answer::NoMore => self.plain_line(b"the world has no more answers"),
            Answer::Done
            | Answer::Failed(_)
            | Answer::Started(_)
            | Answer::Refused
            | Answer::Exited(_) => self.plain_line(b"no answer to a wait"),
        }
    }

    /// The line of bytes that came.
    fn arrival_line(&self, id: Id, bytes: &[u8]) -> Result<Vec<u8, A>, NoMemory>
        ensures { IfOk result (λ told.
            told.items ≡ line [] (id_text id.0 ++ codes " says") (sized bytes.now)) }
    {
        let mut what = Vec::new(self.alloc);
        push_id(&mut what, id)?;
        what.extend_from_slice(b" says")?;
        let mut detail = Vec::new(self.alloc);
        push_bytes(&mut detail, bytes)?;
        let mut out = Vec::new(self.alloc);
        push_line(&mut out, b"", &what, &detail)?;
        Ok(out)
    }

    /// The line of how the wait in progress is over, with the branch that is chosen for it.
    fn over_line(&self, over: Over) -> Result<Vec<u8, A>, NoMemory>
        ensures { IfOk result (λ told. (branch : List ℕ)
            × (told.items ≡ line [] (over_text (Some over)) branch)) }
    {
        let chosen = match &self.wait {
            Some(wait) => keyword_for(wait, over),
            None => None,
        };
        let mut out = Vec::new(self.alloc);
        push_over(&mut out, Some(over), chosen)?;
        Ok(out)
    }

    /// A line that says only what happened.
    fn plain_line(&self, event: &[u8]) -> Result<Vec<u8, A>, NoMemory>
        ensures { IfOk result (λ told. told.items ≡ line [] event.now []) }
    {
        let mut out = Vec::new(self.alloc);
        push_line(&mut out, b"", event, b"")?;
        Ok(out)
    }
}

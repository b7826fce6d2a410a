//! What of a run is told and remembered: what begins, and what follows.

ghost use Rattle.std.specs.Prelude.{◌≡◌, true, None, IfOk, is_some};
ghost use Rattle.teller.specs.Asked.{is_asked, is_of_command};
ghost use Rattle.teller.specs.declared.telling.Detail.TheVariants.{Whole};

use crate::ended::{chosen, is_argument_next};
use crate::lines::Lines;
use crate::telling::{Asker, Detail, Teller};
use crate::told::push_act;
use acts::{Act, NoMemory};
use code::is_braced;
use dialog::Trigger;
use expects::form::Form;
use expects::turn::Waits as TurnWaits;
use kept::Argument;
use machine::{Running, Waits};
use recent::Readable;
use state::{Leaf, State};
use std::alloc::Allocator;
use tcltext::Value;

impl<A: Allocator + Copy> Teller<A> {
    /// Takes note of the script of a run that begins.
    ///
    /// # Errors
    /// `NoMemory`.
    pub fn starts(&mut self, script: &[u8], args: &[Vec<u8, A>]) -> Result<(), NoMemory> {
        let name = match args.first() {
            Some(name) => name.as_slice(),
            None => b"-".as_slice(),
        };
        self.lines = Some(Lines::of(self.alloc, name, script, self.commands)?);
        self.script = Vec::from_slice(self.alloc, script)?;
        Ok(())
    }

    /// Takes note of the branches that a command says which begins with these words.
    ///
    /// # Errors
    /// `NoMemory`.
    pub fn begins(&mut self, words: &[Value<A>]) -> Result<(), NoMemory> {
        match self.branching(words) {
            Some([text]) if is_braced(text.as_slice()) => self.begins_braced(text.as_slice()),
            Some(args) => self.branches.read(self.alloc, args, self.stands),
            None => Ok(()),
        }
    }

    /// The words after the name of a command that takes branches, whose branches come next.
    fn branching<'a>(&mut self, words: &'a [Value<A>]) -> Option<&'a [Value<A>]> {
        let [name, args @ ..] = words else {
            return None;
        };
        let form = Form::read(name.as_slice())?;
        if !self.in_turn {
            self.branches.clear();
        }
        self.stands = matches!(form, Form::Stands(_));
        Some(args)
    }

    /// Takes note of the branches that the words of an argument in braces say, where these are
    /// texts as they stand; else they are told once they are substituted.
    fn begins_braced(&mut self, text: &[u8]) -> Result<(), NoMemory> {
        match Argument::read_from(self.alloc, text)? {
            Argument::Texts(words) => self.branches.read(self.alloc, &words, self.stands),
            Argument::Words(_) | Argument::Faulty(_) => Ok(()),
        }
    }

    /// Takes note of words that say branches, after the name of their command.
    ///
    /// # Errors
    /// `NoMemory`.
    pub fn says(&mut self, words: &[Value<A>]) -> Result<(), NoMemory> {
        match self.branching(words) {
            Some(args) => self.branches.read(self.alloc, args, self.stands),
            None => Ok(()),
        }
    }

    /// Tells what has come of what began or was answered: an outcome, or an act.
    ///
    /// # Errors
    /// `NoMemory`.
    pub fn leads(
        &mut self,
        running: &Running<A>,
        state: &State<A>,
        leaf: &Leaf<A, Waits<A>>,
        detail: Detail,
    ) -> Result<Vec<u8, A>, NoMemory>
        // Where the whole is told, it keeps in mind whether a command asks for the next act.
        ensures asked { detail ≡ Whole → IfOk result (λ _.
            is_some self.new.asked ≡ is_asked leaf.now) }
    {
        self.note_lead(matches!(leaf, Leaf::Has(Err(_))));
        match leaf {
            Leaf::Has(_) => self.outcome_lines(running, state, detail),
            Leaf::Asks(act, waits) => self.act_lines(state, act, waits, detail),
        }
    }

    /// The lines of an outcome of what began, or of a choice whose body stands on top.
    fn outcome_lines(
        &mut self,
        running: &Running<A>,
        state: &State<A>,
        detail: Detail,
    ) -> Result<Vec<u8, A>, NoMemory>
        ensures { IfOk result (λ _. self.new.asked ≡ None) }
    {
        let mut out = Vec::new(self.alloc);
        self.has(&mut out, running, state, detail)?;
        self.asked = None;
        Ok(out)
    }

    /// The lines of an act that waits for its answer.
    fn act_lines(
        &mut self,
        state: &State<A>,
        act: &Act<A>,
        waits: &Waits<A>,
        detail: Detail,
    ) -> Result<Vec<u8, A>, NoMemory>
        ensures { detail ≡ Whole → IfOk result (λ _.
            is_some self.new.asked ≡ is_of_command waits.now) }
    {
        match waits {
            Waits::Command(_) => self.ask(detail),
            Waits::Turn(waits) => self.turn_lines(state, act, waits, detail),
        }
    }

    /// The lines of an act of a turn.
    fn turn_lines(
        &mut self,
        state: &State<A>,
        act: &Act<A>,
        waits: &TurnWaits<A>,
        detail: Detail,
    ) -> Result<Vec<u8, A>, NoMemory>
        ensures { IfOk result (λ _. self.new.asked ≡ None) }
    {
        let mut out = Vec::new(self.alloc);
        self.await_turn(&mut out, state, act, waits, detail)?;
        self.asked = None;
        Ok(out)
    }

    /// Keeps in mind the command that asks for an act, which has its line once it is answered.
    fn ask(&mut self, detail: Detail) -> Result<Vec<u8, A>, NoMemory>
        ensures { detail ≡ Whole → IfOk result (λ _. is_some self.new.asked ≡ true) }
    {
        let asked = self.asker(detail)?;
        self.asked = asked;
        Ok(Vec::new(self.alloc))
    }

    /// Tells an outcome of what began, or a choice whose body stands on top.
    fn has(
        &mut self,
        out: &mut Vec<u8, A>,
        running: &Running<A>,
        state: &State<A>,
        detail: Detail,
    ) -> Result<(), NoMemory> {
        if is_argument_next(&running.frames) {
            return Ok(());
        }
        if let Some(turn) = chosen(&running.frames) {
            return self.choose(out, state, turn, detail);
        }
        if self.wait.is_some() {
            self.tell_vain(out, None, detail)?;
        }
        if self.stands {
            self.stands = false;
            let standing = &state.ids.standing;
            self.branches
                .stand(standing.pairs_before(), standing.pairs_after())?;
        }
        Ok(())
    }

    /// The command that asks for an act; none where only what led to the end is told.
    fn asker(&mut self, detail: Detail) -> Result<Option<Asker>, NoMemory>
        ensures { detail ≡ Whole → IfOk result (λ asked. is_some asked ≡ true) }
    {
        if detail == Detail::Brief {
            return Ok(None);
        }
        let spots = self.in_progress()?;
        Ok(Some(Asker {
            spot: spots.last().copied(),
        }))
    }

    /// Tells the first wait of a turn.
    fn await_turn(
        &mut self,
        out: &mut Vec<u8, A>,
        state: &State<A>,
        act: &Act<A>,
        waits: &TurnWaits<A>,
        detail: Detail,
    ) -> Result<(), NoMemory> {
        let TurnWaits::Awaited(turn) = waits else {
            return Ok(());
        };
        if turn.trigger != Trigger::Entry {
            return Ok(());
        }
        let wait = self.wait_of(state, turn)?;
        for one in wait.awaited.iter() {
            self.heard.resize(one.id, one.max)?;
        }
        if detail == Detail::Whole {
            let mut about = Vec::new(self.alloc);
            push_act(&mut about, act)?;
            self.tell_command(out, wait.spot, &about)?;
        }
        self.wait = Some(wait);
        Ok(())
    }
}

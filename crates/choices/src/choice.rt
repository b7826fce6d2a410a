//! Which pair an `expect` chooses, and what its choice takes.
ghost use Rattle.std.specs.Prelude.{◌≡◌, ◌==◌, ◌&&◌, ◌≤◌, length, IfOk, OnOk, OnErr, IfSome, MatchOption, Some, None};
ghost use Rattle.choices.specs.Choice.{Chosen, Chooses, chosen, looks_at, takes, is_full, is_filled, is_met, Finds, FindsIn, IsFoundFor, IsMet, IsFirst, IsNone, share_at, shortened_to, lines_after, taken_at, taken_of};
ghost use Rattle.choices.specs.Branches.{Sought};
ghost use Rattle.patterns.specs.declared.search.Found as found;
ghost use Rattle.searches.specs.Lead.{IsLead};
ghost use Rattle.choices.specs.Lines.{Line, line_of, at_line, listing};
ghost use Rattle.choices.specs.Selects.{Selects, taken_by};

use crate::branch::{Awaited, Pair};
use crate::table::Table;
use acts::{Id, NoMemory};
use patterns::{Found, Pattern};
use searches::{Lead, Round};
use std::alloc::Allocator;
use tcltext::Value;

/// The event after which a pair is looked for (expect(1), expect).
#[derive(Clone, Copy, Debug, PartialEq, Eq)]
pub enum Trigger {
    /// The `expect` begins, or goes on by `exp_continue`.
    Entry,
    /// Bytes of this id have arrived.
    Arrival(Id),
    /// Nothing more comes from this id.
    End(Id),
    /// The timer has run out.
    TimedOut,
}

/// What was chosen.
#[derive(Drop)]
pub struct Choice<A: Allocator> {
    /// The script of the branch.
    pub body: Value<A>,
    /// What the choice has for the variable `expect_out`; none after a timeout, and none where the
    /// id is not open.
    pub taken: Option<Taken<A>>,
}

/// What a choice has for the variable `expect_out` (expect(1), expect_out).
#[derive(Drop)]
pub struct Taken<A: Allocator> {
    /// The id of the pair.
    pub id: Id,
    /// The match and all before it, or the whole window where a keyword was chosen.
    pub buffer: Vec<u8, A>,
    /// Where in the window the pattern was found; none where a keyword was chosen.
    pub found: Option<Found>,
    /// Whether the places of the match are reported (`-indices`).
    pub tells_places: bool,
}

impl Trigger {
    /// Whether the pattern of a pair is looked for after this trigger.
    fn looks_at<A: Allocator>(self, pair: &Pair<A>) -> bool
        ensures { result ≡ looks_at self pair.now }
    {
        match self {
            Trigger::Entry => true,
            Trigger::Arrival(id) => pair.id() == id,
            Trigger::End(_) | Trigger::TimedOut => false,
        }
    }

    /// Whether the texts that are sought after this trigger may ask for memory to be remembered: on
    /// entry, before the wait, and not after an arrival.
    fn grows(self) -> bool {
        matches!(self, Trigger::Entry)
    }

    /// Whether a choice after this trigger takes something of a window.
    fn takes(self) -> bool
        ensures { result ≡ takes self }
    {
        !matches!(self, Trigger::TimedOut)
    }
}

impl<A: Allocator> Table<A> {
    /// Whether an id is open, and its buffer holds as many bytes as it may.
    fn is_full_at(&self, id: Id) -> bool
        ensures { result ≡ is_full (line_of self.now.lines id) }
    {
        match self.place(id) {
            Some(place) => self.entries[place].is_full(),
            None => false,
        }
    }

    /// Whether a pair waits for a full buffer, and the buffer of its id is full.
    fn is_filled(&self, pair: &Pair<A>) -> bool
        ensures { result ≡ is_filled self.now.lines pair.now }
    {
        pair.awaited().takes_full() && self.is_full_at(pair.id())
    }

    /// Whether what the keyword of a pair names has come.
    fn is_met(&self, pair: &Pair<A>, trigger: Trigger) -> bool
        ensures { result ≡ is_met self.now.lines trigger pair.now }
    {
        match trigger {
            Trigger::Entry => self.is_filled(pair),
            Trigger::Arrival(id) => pair.id() == id && self.is_filled(pair),
            Trigger::End(id) => {
                pair.id() == id && pair.awaited().takes_end() && self.is_open(id)
            }
            Trigger::TimedOut => pair.awaited().takes_timeout(),
        }
    }

    /// The first pair whose keyword names what has come.
    fn first_met<'a>(&self, pairs: &'a [Pair<A>], trigger: Trigger) -> Option<&'a Pair<A>>
        ensures { let Has = IsMet self.now.lines trigger in MatchOption result
            (IsNone Has pairs.now) (λ pair. IsFirst Has pairs.now pair.now) }
    {
        let mut rest = pairs;
        while let Some((pair, more)) = rest.split_first() {
            if self.is_met(pair, trigger) {
                return Some(pair);
            }
            rest = more;
        }
        None
    }
}

impl<A: Allocator + Copy> Table<A> {
    /// Chooses the first pair whose pattern is found, else the first whose keyword has come, and
    /// consumes what the choice consumes. Other ids are untouched. Windows are searched where they
    /// lie, and memory is asked for only where there is a choice and, on entry, to remember what
    /// was sought; where that is refused, the same is chosen, and later searches take longer.
    ///
    /// # Errors
    /// `NoMemory`, only where there is a choice. The table is then as it was.
    pub fn select(
        &mut self,
        alloc: A,
        pairs: &[Pair<A>],
        trigger: Trigger,
    ) -> Result<Option<Choice<A>>, NoMemory>
        ensures selects { IfOk result (λ choice.
            Selects choice trigger pairs.now self.old.lines self.new.lines) }
        ensures next { self.new.next ≡ self.old.next }
        ensures unchanged { OnErr result (self.new ≡ self.old) }
        ensures refused { OnErr result
            ((c : Chosen) × Chooses self.old.lines trigger pairs.now (Some c)) }
    {
        if let Some((pair, found)) = self.first_found(alloc, pairs, trigger) {
            let choice = self.choose(alloc, pair, Some(found), trigger)?;
            return Ok(Some(choice));
        }
        let Some(pair) = self.first_met(pairs, trigger) else {
            return Ok(None);
        };
        let choice = self.choose(alloc, pair, None, trigger)?;
        Ok(Some(choice))
    }

    /// The first pair whose pattern is found, and where.
    fn first_found<'a>(
        &mut self,
        alloc: A,
        pairs: &'a [Pair<A>],
        trigger: Trigger,
    ) -> Option<(&'a Pair<A>, Found)>
        ensures unchanged { self.new ≡ self.old }
        ensures found { let Has = IsFoundFor self.old.lines trigger in MatchOption result
            (IsNone Has pairs.now) (λ at. IsFirst Has pairs.now at.0.now
            × Finds self.old.lines trigger at.0.now at.1) }
    {
        let round = self.next_round(trigger);
        let mut rest = pairs;
        while let Some((pair, more)) = rest.split_first() {
            if let Some(found) = self.search(alloc, pair, trigger, round) {
                self.note_found(pairs.len().saturating_sub(rest.len()), found);
                return Some((pair, found));
            }
            rest = more;
        }
        None
    }

    /// Remembers which pattern was found, by the place of its pair, and where.
    fn note_found(&mut self, place: usize, found: Found)
        ensures { self.new ≡ self.old }
    {
        self.found = Some((place, found));
    }

    /// Begins the searches of a choice.
    fn next_round(&mut self, trigger: Trigger) -> Round
        ensures { self.new ≡ self.old }
    {
        self.rounds = self.rounds.wrapping_add(1);
        self.found = None;
        Round {
            number: self.rounds,
            grows: trigger.grows(),
        }
    }

    /// Where the pattern of a pair is found, if it is looked for.
    fn search(&mut self, alloc: A, pair: &Pair<A>, trigger: Trigger, round: Round) -> Option<Found>
        ensures unchanged { self.new ≡ self.old }
        ensures found { MatchOption result
            (¬ IsFoundFor self.old.lines trigger pair.now)
            (λ found. Finds self.old.lines trigger pair.now found) }
    {
        if !trigger.looks_at(pair) {
            return None;
        }
        let Awaited::Sought(pattern) = pair.awaited() else {
            return None;
        };
        self.find(alloc, pair.id(), pattern, pair.lead(), round)
    }

    /// Where a pattern is found in the window of an id, where the id is open.
    fn find(
        &mut self,
        alloc: A,
        id: Id,
        pattern: &Pattern<A>,
        lead: Option<&Lead<A>>,
        round: Round,
    ) -> Option<Found>
        requires { IfSome lead (λ lead. IsLead pattern.now lead.now) }
        ensures unchanged { self.new ≡ self.old }
        ensures found { let line = line_of self.old.lines id in MatchOption result
            ((f : found.Found) → ¬ FindsIn (Sought pattern.now) line f)
            (FindsIn (Sought pattern.now) line) }
    {
        let Some(place) = self.place(id) else {
            return None;
        };
        self.entries[place].search(alloc, pattern, lead, round)
    }

    /// The choice of a pair: its body, and what it takes. On `Err` the table is unchanged.
    fn choose(
        &mut self,
        alloc: A,
        pair: &Pair<A>,
        found: Option<Found>,
        trigger: Trigger,
    ) -> Result<Choice<A>, NoMemory>
        requires { (l : Line) → line_of self.old.lines pair.now.id ≡ Some l →
            IfSome found (λ f. f.end ≤ length l.held.bytes) }
        ensures body { IfOk result (λ choice. choice.body ≡ pair.now.branch.body) }
        ensures taken { IfOk result (λ choice. taken_by choice.taken
            ≡ taken_of self.old.lines trigger (chosen pair.now found)) }
        ensures lines { OnOk result (self.new.lines
            ≡ lines_after trigger (chosen pair.now found) self.old.lines) }
        ensures next { self.new.next ≡ self.old.next }
        ensures unchanged { OnErr result (self.new ≡ self.old) }
    {
        let body = pair.body().share()?;
        if !trigger.takes() {
            let taken = None;
            return Ok(Choice { body, taken });
        }
        let taken = self.take(alloc, pair, found)?;
        Ok(Choice { body, taken })
    }

    /// What a chosen pair takes, where its id is open. On `Err` the table is unchanged.
    fn take(
        &mut self,
        alloc: A,
        pair: &Pair<A>,
        found: Option<Found>,
    ) -> Result<Option<Taken<A>>, NoMemory>
        requires { (l : Line) → line_of self.old.lines pair.now.id ≡ Some l →
            IfSome found (λ f. f.end ≤ length l.held.bytes) }
        ensures taken { IfOk result (λ taken. taken_by taken
            ≡ taken_at (chosen pair.now found) (line_of self.old.lines pair.now.id)) }
        ensures lines { OnOk result (self.new.lines
            ≡ at_line (shortened_to (share_at (chosen pair.now found))) pair.now.id
            self.old.lines) }
        ensures next { self.new.next ≡ self.old.next }
        ensures unchanged { OnErr result (self.new ≡ self.old) }
    {
        let Some(place) = self.place(pair.id()) else {
            return Ok(None);
        };
        let entry = &mut self.entries[place];
        let buffer = entry.hand_out(alloc, found, pair.stays())?;
        self.rows[place] = entry.row();
        let taken = Taken {
            id: pair.id(),
            buffer,
            found,
            tells_places: pair.tells_places(),
        };
        Ok(Some(taken))
    }
}

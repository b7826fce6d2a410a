//! Where the run of a code stands, and how instructions change it.

ghost use Rattle.std.specs.Prelude.{◌≡◌, ◌≤◌, ◌-◌, [], Some, IfOk, OnOk};
ghost use Rattle.state.specs.Prelude.{Gives, Status, outcome_of};
ghost use Rattle.steps.specs.Machine.{beginning, beginning_counted, counting, discarding, joining, leaving, saying_counted, ticking};
ghost use Rattle.steps.specs.Moves.{on_top};
ghost use Rattle.steps.specs.Spot.{Begins, Evaluates, Over as is_over, Runs, Went as goes, beginning_at, with_top};
ghost use Rattle.steps.specs.View.{IsOpen, below_words, did_of, spot_of, with_parts, words_of};
ghost use Rattle.steps.specs.declared.progress.Progress.TheVariants as went;

use crate::handler::Handler;
use crate::joining::joined;
use crate::progress::Progress;
use crate::stack::put_on;
use memory::NoMemory;
use state::{Leave, Outcome, Stop};
use std::alloc::Allocator;
use tcltext::Value;

/// Where the run of a code stands.
pub struct Spot<A: Allocator> {
    /// The place of the next instruction.
    pub place: usize,
    /// The operands, the top one last.
    pub operands: Vec<Value<A>, A>,
    /// Of each command whose words are counted, how many operands stand below its words, and of
    /// each `foreach` how many below its elements, the innermost last.
    pub marks: Vec<usize, A>,
    /// The levels that may still nest.
    pub levels: u8,
    /// The handlers of the turns of loops that are open, the innermost last.
    pub handlers: Vec<Handler, A>,
    /// How many operands stand below the words of the command that begins.
    pub below: usize,
    /// The words by which the last command began that is not over at once.
    pub words: Vec<Value<A>, A>,
    /// The outcome of the code, once it is over.
    pub outcome: Outcome<A>,
}

impl<A: Allocator> Drop for Spot<A> {
    fn drop(self) {
        let Spot {
            place: _,
            operands: _,
            marks: _,
            levels: _,
            handlers: _,
            below: _,
            words: _,
            outcome: _,
        } = self;
    }
}

impl<A: Allocator + Copy> Spot<A> {
    /// Where the run of a code begins, with nothing on top, where this many levels may nest.
    pub(crate) fn first(alloc: A, levels: u8) -> Spot<A>
        ensures { spot_of result ≡ record {
          place = 0;
          operands = [];
          marks = [];
          levels = levels;
          handlers = [];
        } }
    {
        Spot {
            place: 0,
            operands: Vec::new(alloc),
            marks: Vec::new(alloc),
            levels,
            handlers: Vec::new(alloc),
            below: 0,
            words: Vec::new(alloc),
            outcome: Ok(Value::empty()),
        }
    }

    /// Where a code begins, in which this many levels may nest: the empty text is on top.
    ///
    /// # Errors
    /// `NoMemory` where memory is refused.
    pub fn new(alloc: A, levels: u8) -> Result<Spot<A>, NoMemory>
        ensures { IfOk result (λ spot. spot_of spot ≡ beginning_at levels) }
    {
        let mut spot = Spot::first(alloc, levels);
        put_on(&mut spot.operands, Value::empty())?;
        Ok(spot)
    }

    /// Puts a text that is shared on top.
    pub fn put_shared(&mut self, text: &Value<A>) -> Result<Progress, NoMemory>
        ensures does { (s : Status) → IfOk result (λ progress. did_of progress self.new s
            ≡ goes (with_top text.now (spot_of self.old)) s) }
        ensures place { self.new.place ≡ self.old.place }
    {
        Ok(self.put(text.share()?)?)
    }

    /// Puts a value on top.
    #[inline(always)]
    pub fn put(&mut self, value: Value<A>) -> Result<Progress, NoMemory>
        ensures does { (s : Status) → IfOk result (λ progress.
            did_of progress self.new s ≡ goes (with_top value (spot_of self.old)) s) }
        ensures place { self.new.place ≡ self.old.place }
    {
        put_on(&mut self.operands, value)?;
        Ok(Progress::GoesOn)
    }

    /// The value on top is the outcome.
    pub fn finish(&mut self) -> Progress
        ensures does { (s : Status) → did_of result self.new s
            ≡ on_top (spot_of self.old).operands (λ value below. is_over (Gives value) s) }
        ensures ends { IsOpen result → ⊥ }
    {
        let Some(value) = self.operands.pop() else {
            return Progress::Stuck;
        };
        self.end(Ok(value))
    }

    /// The code is over, with this outcome.
    pub fn end(&mut self, outcome: Outcome<A>) -> Progress
        ensures does { (s : Status) →
            did_of result self.new s ≡ is_over (outcome_of outcome) s }
        ensures over { result ≡ went.Over }
        ensures place { self.new.place ≡ self.old.place }
    {
        self.outcome = outcome;
        Progress::Over
    }

    /// Drops the value on top, and takes a tick.
    pub fn tick(&mut self, left: &mut u64) -> Progress
        ensures does { (s : Status) →
            did_of result self.new (with_parts s.scopes s.procedures left.new s)
            ≡ ticking (spot_of self.old) (with_parts s.scopes s.procedures left.old s) }
        ensures ticks { left.new ≤ left.old }
        ensures place { self.new.place ≡ self.old.place }
    {
        let Some(_) = self.operands.pop() else {
            return Progress::Stuck;
        };
        if *left == 0 {
            return self.end(Err(Leave::Stopped(Stop::Limit)));
        }
        *left -= 1;
        Progress::GoesOn
    }

    /// Drops the value on top.
    pub fn discard(&mut self) -> Progress
        ensures does { (s : Status) →
            did_of result self.new s ≡ discarding (spot_of self.old) s }
        ensures place { self.new.place ≡ self.old.place }
    {
        let Some(_) = self.operands.pop() else {
            return Progress::Stuck;
        };
        Progress::GoesOn
    }

    /// Puts the text on top after the one below it.
    pub fn join(&mut self, alloc: A) -> Result<Progress, NoMemory>
        ensures does { (s : Status) → IfOk result (λ progress.
            did_of progress self.new s ≡ joining (spot_of self.old) s) }
        ensures place { self.new.place ≡ self.old.place }
    {
        let Some(value) = self.operands.pop() else {
            return Ok(Progress::Stuck);
        };
        let Some(bytes) = self.operands.pop() else {
            return Ok(Progress::Stuck);
        };
        let joined = joined(alloc, bytes, value.as_slice())?;
        put_on(&mut self.operands, joined)?;
        Ok(Progress::GoesOn)
    }

    /// A script in brackets is over.
    pub fn leave(&mut self) -> Progress
        ensures does { (s : Status) →
            did_of result self.new s ≡ leaving (spot_of self.old) s }
        ensures place { self.new.place ≡ self.old.place }
    {
        if self.levels == u8::MAX {
            return Progress::Stuck;
        }
        self.levels += 1;
        Progress::GoesOn
    }

    /// From here on words are counted, after this many.
    pub fn count(&mut self, n: usize) -> Result<Progress, NoMemory>
        ensures does { (s : Status) → IfOk result (λ progress.
            did_of progress self.new s ≡ counting n (spot_of self.old) s) }
        ensures place { self.new.place ≡ self.old.place }
    {
        let below = self.operands.len().saturating_sub(n);
        self.marks.push(below)?;
        Ok(Progress::GoesOn)
    }

    /// Begins a command, whose words are all operands but this many.
    pub fn begin(&mut self, below: usize) -> Progress
        ensures does { (s : Status) →
            did_of result self.new s ≡ beginning below (spot_of self.old) s }
        ensures place { self.new.place ≡ self.old.place }
    {
        if self.operands.len() < below {
            return Progress::Stuck;
        }
        self.below = below;
        Progress::Begins
    }

    /// Begins a command, whose words were counted.
    pub fn begin_counted(&mut self) -> Progress
        ensures does { (s : Status) →
            did_of result self.new s ≡ beginning_counted (spot_of self.old) s }
        ensures place { self.new.place ≡ self.old.place }
    {
        let Some(below) = self.marks.pop() else {
            return Progress::Stuck;
        };
        self.begin(below)
    }

    /// Gives the branches of a command by its name and by words, which were counted together.
    pub fn say(&mut self) -> Progress
        ensures does { (s : Status) →
            did_of result self.new s ≡ saying_counted (spot_of self.old) s }
        ensures place { self.new.place ≡ self.old.place }
    {
        let Some(below) = self.marks.pop() else {
            return Progress::Stuck;
        };
        if self.operands.len() < below {
            return Progress::Stuck;
        }
        self.below = below;
        Progress::Says
    }

    /// Begins a command by words that are no operands yet.
    pub(crate) fn begin_by(&mut self, mut words: Vec<Value<A>, A>) -> Result<Progress, NoMemory>
        ensures does { (s : Status) → IfOk result (λ progress.
            did_of progress self.new s ≡ Begins words.items (spot_of self.old) s) }
        ensures place { self.new.place ≡ self.old.place }
    {
        self.below = self.operands.len();
        self.operands.append(&mut words)?;
        Ok(Progress::Begins)
    }

    /// Runs the script of a text, which is the only word.
    pub(crate) fn run_text(&mut self, text: &Value<A>) -> Result<Progress, NoMemory>
        ensures does { (s : Status) → IfOk result (λ progress. did_of progress self.new s
            ≡ Runs text.now (self.old.levels - 1) (spot_of self.old) s) }
        ensures place { self.new.place ≡ self.old.place }
    {
        self.below = self.operands.len();
        put_on(&mut self.operands, text.share()?)?;
        Ok(Progress::Runs)
    }

    /// Evaluates a text as a formula, which is the only word.
    pub(crate) fn evaluate_text(&mut self, text: &Value<A>) -> Result<Progress, NoMemory>
        ensures does { (s : Status) → IfOk result (λ progress.
            did_of progress self.new s ≡ Evaluates text.now (spot_of self.old) s) }
        ensures place { self.new.place ≡ self.old.place }
    {
        self.below = self.operands.len();
        put_on(&mut self.operands, text.share()?)?;
        Ok(Progress::Evaluates)
    }

    /// The words by which something begins.
    pub(crate) fn words_on_top(&self) -> &[Value<A>]
        ensures { result.now ≡ words_of self.now }
    {
        match self.operands.get(self.below..) {
            Some(words) => words,
            None => &[],
        }
    }

    /// Drops the words of the command that begins.
    pub(crate) fn drop_words(&mut self)
        ensures stands { spot_of self.new ≡ below_words self.old }
        ensures place { self.new.place ≡ self.old.place }
    {
        self.operands.truncate(self.below);
    }

    /// Takes the words by which something begins off the operands.
    ///
    /// # Errors
    /// `NoMemory` where memory is refused.
    pub fn take_words(&mut self) -> Result<(), NoMemory>
        ensures words { OnOk result (self.new.words.items ≡ words_of self.old) }
        ensures stands { OnOk result (spot_of self.new ≡ below_words self.old) }
        ensures place { self.new.place ≡ self.old.place }
    {
        let below = self.below.min(self.operands.len());
        self.words = self.operands.split_off(below)?;
        Ok(())
    }
}

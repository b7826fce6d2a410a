//! The run of a code as one value: the code, which is shared, and where the run stands in it.

ghost use Rattle.std.specs.Prelude.{◌≡◌, ◌+◌, ◌*◌, ◌<◌, ◌≤◌, ℕ, true, IfOk};
ghost use Rattle.plan.specs.Plan.{and_then, onward};
ghost use Rattle.runs.specs.Ending.{Over};
ghost use Rattle.state.specs.Budget.{again_of};
ghost use Rattle.state.specs.Prelude.{Dialogue, FitsState, Outcome as Ending, Status, on_value, outcome_of};
ghost use Rattle.steps.specs.Entered.{entered};

use crate::advancing::advance;
use crate::at_once::perform;
use crate::handling::resume;
use crate::progress::Progress;
use crate::spot::Spot;
use acts::NoMemory;
use code::{Entry, Instruction};
use state::{Outcome, State};
use std::alloc::Allocator;
use std::rc::Rc;
use tcltext::Value;

/// The run of a code, which waits for an outcome: at its beginning for the empty text, and then for
/// that of the command that began last.
pub struct Run<A: Allocator> {
    pub code: Rc<Vec<Instruction<A>, A>, A>,
    pub spot: Spot<A>,
}

impl<A: Allocator> Drop for Run<A> {
    fn drop(self) {
        let Run { code: _, spot: _ } = self;
    }
}

impl<A: Allocator + Copy> Run<A> {
    ghost use Rattle.steps.specs.Run.{Awaits, HasCome, HasStopped, IsBegun, IsFresh, IsIdle, IsValue, StaysStill, most_commands, places_left};
    ghost use Rattle.code.specs.Doing.{are_still};
    ghost use Rattle.steps.specs.View.{IsCall};
    ghost use Rattle.steps.specs.declared.progress.Progress.TheVariants as went;

    /// The run of a script, of a formula, of the words of an argument in braces, or of what a
    /// command does, of which nothing is done yet, in which this many levels may nest.
    ///
    /// # Errors
    /// `NoMemory` where memory is refused.
    pub fn begin(alloc: A, it: Entry<A>, levels: u8) -> Result<Run<A>, NoMemory>
        ensures awaits { (last : Status → Ending → Dialogue Over) →
            IfOk result (λ run. Awaits last run (λ s outcome.
            and_then (on_value (entered it levels) s outcome) (onward last))) }
        ensures begun { IfOk result (IsBegun it) }
    {
        let spot = Spot::first(alloc, levels);
        let code = it.into_code(alloc)?;
        Ok(Run { code, spot })
    }

    /// Hands in the outcome that the run waits for, and runs the code up to the next command that
    /// is not over at once, or to branches that are given, or to a text that runs or is evaluated,
    /// whose words lie in the spot and whose outcome the run waits for then, or to the end, whose
    /// outcome lies there. It never answers `GoesOn`.
    ///
    /// What begins without a tick before it stands further on in the code than what began before,
    /// so that a run ends after so many outcomes. A run of which nothing is done yet takes a tick
    /// before its first command and before a text, and gives branches last; one of what a command
    /// does begins no command at all.
    ///
    /// # Errors
    /// `NoMemory` where memory is refused.
    pub fn go_on(
        &mut self,
        alloc: A,
        state: &mut State<A>,
        mut outcome: Outcome<A>,
    ) -> Result<Progress, NoMemory>
        ensures stops { (last next : Status → Ending → Dialogue Over) (s : Status) →
            FitsState state.old s → Awaits last self.old next →
            IfOk result (λ progress.
            HasStopped last progress self.new state.new (next s (outcome_of outcome))) }
        ensures left { IfOk result (λ _. state.new.left ≤ state.old.left) }
        ensures onward { IfOk result (λ progress. IsCall progress →
            state.new.left ≡ state.old.left → places_left self.new < places_left self.old) }
        ensures falls { IfOk result (λ progress. IsCall progress →
            most_commands self.new state.new.left < most_commands self.old state.old.left) }
        ensures first { (said : ℕ) → IsFresh said self.old → IsValue outcome →
            IfOk result (λ progress. state.new.left ≡ state.old.left →
            IsIdle said self.new.code.value.items progress self.new.spot) }
        ensures still { are_still self.old.code.value.items ≡ true → IfOk result (λ progress.
            StaysStill progress self.new.spot (again_of (outcome_of outcome))) }
        ensures code { IfOk result (λ _.
            self.new.code.value.items ≡ self.old.code.value.items) }
        ensures again { IfOk result (λ progress. progress ≡ went.Over →
            state.new.left ≡ state.old.left →
            again_of (outcome_of self.new.spot.outcome)
            ≤ again_of (outcome_of outcome) + 2 * places_left self.old) }
    {
        'commands: loop {
            let progress = self.reach_command(alloc, state, outcome)?;
            if progress != Progress::Begins {
                return Ok(self.stop(progress)?);
            }
            match perform(alloc, state, self.spot.words_on_top())? {
                Some(done) => {
                    self.spot.drop_words();
                    outcome = done;
                }
                None => {
                    self.spot.take_words()?;
                    return Ok(Progress::Begins);
                }
            }
        }
    }

    /// Takes the words off the operands by which something begins, where the run has come there.
    fn stop(&mut self, progress: Progress) -> Result<Progress, NoMemory>
        ensures same { IfOk result (λ stopped. stopped ≡ progress) }
        ensures stops { (last : Status → Ending → Dialogue Over) (state : State A)
            (p : Dialogue Over) → HasCome last progress self.old state p →
            IfOk result (λ _. HasStopped last progress self.new state p) }
        ensures code { self.new.code.value.items ≡ self.old.code.value.items }
        ensures place { self.new.spot.place ≡ self.old.spot.place }
        ensures outcome { progress ≡ went.Over → self.new ≡ self.old }
    {
        if !progress.is_call() {
            return Ok(progress);
        }
        self.spot.take_words()?;
        Ok(progress)
    }

    /// Hands in the outcome that the run waits for, and runs the code up to the next command, to
    /// branches that are given, or to a text, whose words are operands still, or to the end.
    fn reach_command(
        &mut self,
        alloc: A,
        state: &mut State<A>,
        outcome: Outcome<A>,
    ) -> Result<Progress, NoMemory>
        ensures stops { (last next : Status → Ending → Dialogue Over) (s : Status) →
            FitsState state.old s → Awaits last self.old next →
            IfOk result (λ progress.
            HasCome last progress self.new state.new (next s (outcome_of outcome))) }
        ensures left { IfOk result (λ _. state.new.left ≤ state.old.left) }
        ensures onward { IfOk result (λ progress. IsCall progress →
            state.new.left ≡ state.old.left → places_left self.new < places_left self.old) }
        ensures falls { IfOk result (λ progress. IsCall progress →
            most_commands self.new state.new.left < most_commands self.old state.old.left) }
        ensures first { (said : ℕ) → IsFresh said self.old → IsValue outcome →
            IfOk result (λ progress. state.new.left ≡ state.old.left →
            IsIdle said self.new.code.value.items progress self.new.spot) }
        ensures still { are_still self.old.code.value.items ≡ true → IfOk result (λ progress.
            StaysStill progress self.new.spot (again_of (outcome_of outcome))) }
        ensures code { self.new.code.value.items ≡ self.old.code.value.items }
        ensures again { IfOk result (λ progress. progress ≡ went.Over →
            again_of (outcome_of self.new.spot.outcome)
            ≤ again_of (outcome_of outcome) + 2 * places_left self.old) }
    {
        let progress = resume(&mut self.spot, outcome)?;
        if progress != Progress::GoesOn {
            return Ok(progress);
        }
        Ok(advance(
            alloc,
            &self.code,
            &mut self.spot,
            &mut state.scopes,
            &state.procs,
            &mut state.left,
        )?)
    }
}

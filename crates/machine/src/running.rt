//! What a session has still to do: frames, below them the code that runs, and below that what waits
//! for this code.

ghost use Rattle.std.specs.Prelude.{◌≡◌, ◌+◌, ◌*◌, ◌≤◌, ℕ, [], Some, IfOk, OnOk};
ghost use Rattle.machine.specs.Frames.{Onward, left_of, onward_of, stack, weight_in};
ghost use Rattle.machine.specs.Below.{Falls, FallsTo, GoesOn, HasTicked, IsAbove, IsBack, IsBelow, IsLess, IsOnward, IsOpen, IsWhole, RunsOn, TicksFirst, begins_left, depth, left_to_run, parts_of, rest_of};
ghost use Rattle.state.specs.Budget.{again_of};
ghost use Rattle.state.specs.Prelude.{Status, FitsState, outcome_of};
ghost use Rattle.steps.specs.Entered.{entered};
ghost use Rattle.steps.specs.Run.{Awaits, IsFresh, IsValue, branches_in};

use crate::frame::Frame;
use crate::inner::{put_script, put_value};
use crate::starting::Next;
use crate::unwinding::{Unwound, unwind};
use crate::waits::Waits;
use crate::watch::Watch;
use acts::NoMemory;
use code::{CodedScript, Entry, Made};
use kept::Parsed;
use state::{Leaf, Outcome, State};
use std::alloc::Allocator;
use std::mem;
use steps::{Progress, Run};
use tclparse::Script;
use tcltext::Value;

/// How many levels of evaluation may nest in a script (interp(n), recursionlimit).
const MOST_LEVELS: u8 = 100;

/// What waits for the code of a script: the frames that take its outcome, and the code below them.
#[derive(Drop)]
pub struct Part<A: Allocator> {
    pub frames: Vec<Frame<A>, A>,
    /// `None` where nothing is left below them.
    pub code: Option<Run<A>>,
}

/// What a session has still to do.
pub struct Running<A: Allocator> {
    /// The frames, the top one last.
    pub frames: Vec<Frame<A>, A>,
    /// The code that runs below them, and takes the outcome of the lowest frame. `None` where
    /// nothing is left below them.
    pub code: Option<Run<A>>,
    /// What waits for this code, the last one first.
    pub parts: Vec<Part<A>, A>,
    /// What the texts that were read last say.
    pub parsed: Parsed<A>,
}

impl<A: Allocator> Drop for Running<A> {
    fn drop(self) {
        let Running {
            frames: _,
            code: _,
            parts: _,
            parsed: _,
        } = self;
    }
}

/// Where an outcome led.
#[derive(Drop)]
pub enum Handed<A: Allocator> {
    /// Nothing is left, and the run has this outcome.
    Over(Outcome<A>),
    /// The frames take this outcome next.
    Has(Outcome<A>),
    /// This begins on top of the frames.
    Begins(Next<A>),
}

/// Where a code led.
#[derive(Drop)]
pub enum Led<A: Allocator> {
    /// It is over, with this outcome.
    Over(Outcome<A>),
    /// The frames above it, if there are any, take this outcome next, and then the code does.
    Has(Outcome<A>),
    /// This begins by words of the code, which takes its outcome.
    Begins(Next<A>),
}

impl<A: Allocator> Running<A> {
    /// What there is waits for this code, which waits for these frames.
    fn open(&mut self, run: Run<A>, frames: Vec<Frame<A>, A>) -> Result<(), NoMemory>
        ensures { OnOk result (IsOpen self.old run frames self.new) }
    {
        let frames = mem::replace(&mut self.frames, frames);
        let code = mem::replace(&mut self.code, Some(run));
        self.parts.push(Part { frames, code })?;
        Ok(())
    }

    /// Ends the code, or the frames where there is no code, with this outcome: the part that waits
    /// for it goes on, where there is one.
    fn end_part(&mut self, outcome: Outcome<A>) -> Handed<A>
        ensures { IsBack (parts_of self.old) result outcome self.new }
    {
        match self.parts.pop() {
            Some(part) => {
                self.frames = part.frames;
                self.code = part.code;
                Handed::Has(outcome)
            }
            None => {
                self.code = None;
                Handed::Over(outcome)
            }
        }
    }
}

impl<A: Allocator + Copy> Running<A> {
    /// The script of a run, of which nothing is done yet.
    ///
    /// # Errors
    /// `NoMemory` where memory is refused.
    pub fn begin(alloc: A, text: &[u8]) -> Result<Running<A>, NoMemory>
        ensures { IfOk result (λ running. IsWhole running text.now) }
    {
        let tree = Script::read(alloc, text)?;
        let script = CodedScript::new(alloc, tree)?;
        let script = Entry::Made(Made::Script(script));
        let run = Run::begin(alloc, script, MOST_LEVELS)?;
        Ok(Running {
            frames: Vec::new(alloc),
            code: Some(run),
            parts: Vec::new(alloc),
            parsed: Parsed::new(alloc),
        })
    }
}

/// Hands an outcome to what is still to be done, until something begins, a tick was taken, or
/// nothing is left.
pub(crate) fn hand_on<A: Allocator + Copy, T: Watch<A, Running<A>, State<A>, Leaf<A, Waits<A>>>>(
    alloc: A,
    running: &mut Running<A>,
    state: &mut State<A>,
    mut outcome: Outcome<A>,
    watch: &mut T,
) -> Result<Handed<A>, NoMemory>
    ensures goes_on { (last : Onward) (s : Status) → FitsState state.old s →
        IsBelow running.old last → IfOk result (λ handed. GoesOn handed running.new state.new
        (onward_of last (stack running.old.frames) s (outcome_of outcome))) }
    ensures left { IfOk result (λ _. state.new.left ≤ state.old.left) }
    ensures less { IfOk result (λ handed. state.new.left ≡ state.old.left →
        IsLess handed running.new
        (again_of (outcome_of outcome) + rest_of running.old)) }
    ensures ticked { IfOk result (λ handed. HasTicked handed state.new.left state.old.left) }
    ensures watched { T.told watch.old [] watch.new }
{
    let left = state.left;
    'parts: loop {
        match hand_once(alloc, running, state, outcome, watch)? {
            Handed::Has(next) => {
                if state.left < left {
                    return Ok(Handed::Has(next));
                }
                outcome = next;
            }
            Handed::Begins(next) => return Ok(Handed::Begins(next)),
            Handed::Over(last) => return Ok(Handed::Over(last)),
        }
    }
}

/// Hands an outcome to the frames, from the top down, and once all are gone to what lies below
/// them.
fn hand_once<A: Allocator + Copy, T: Watch<A, Running<A>, State<A>, Leaf<A, Waits<A>>>>(
    alloc: A,
    running: &mut Running<A>,
    state: &mut State<A>,
    outcome: Outcome<A>,
    watch: &mut T,
) -> Result<Handed<A>, NoMemory>
    ensures goes_on { (last : Onward) (s : Status) → FitsState state.old s →
        IsBelow running.old last → IfOk result (λ handed. GoesOn handed running.new state.new
        (onward_of last (stack running.old.frames) s (outcome_of outcome))) }
    ensures left { IfOk result (λ _. state.new.left ≤ state.old.left) }
    ensures less { IfOk result (λ handed. state.new.left ≡ state.old.left →
        IsLess handed running.new
        (again_of (outcome_of outcome) + rest_of running.old)) }
    ensures falls { IfOk result (λ handed. state.new.left ≡ state.old.left →
        Falls handed running.old running.new) }
    ensures watched { T.told watch.old [] watch.new }
{
    match unwind(alloc, &mut running.frames, state, outcome)? {
        Unwound::Begins(next) => Ok(Handed::Begins(next)),
        Unwound::Enters(it, levels, value) => {
            Ok(enter(alloc, running, state, it, levels, value, watch)?)
        }
        Unwound::Has(last) => hand_down(alloc, running, state, last, watch),
    }
}

/// Enters a code with this value, above the frames.
fn enter<A: Allocator + Copy, T: Watch<A, Running<A>, State<A>, Leaf<A, Waits<A>>>>(
    alloc: A,
    running: &mut Running<A>,
    state: &mut State<A>,
    it: Entry<A>,
    levels: u8,
    value: Value<A>,
    watch: &mut T,
) -> Result<Handed<A>, NoMemory>
    ensures goes_on { (last : Onward) (s : Status) → FitsState state.old s →
        IsBelow running.old last → IfOk result (λ handed. GoesOn handed running.new state.new
        (left_of last (entered it levels s value) (stack running.old.frames))) }
    ensures left { IfOk result (λ _. state.new.left ≤ state.old.left) }
    ensures less { IfOk result (λ handed. state.new.left ≡ state.old.left →
        IsLess handed running.new (branches_in it + rest_of running.old)) }
    ensures falls { IfOk result (λ handed. state.new.left ≡ state.old.left →
        FallsTo handed running.new (2 * weight_in it + depth running.old)) }
    ensures watched { T.told watch.old [] watch.new }
{
    let mut run = Run::begin(alloc, it, levels)?;
    let mut frames = Vec::new(alloc);
    let parsed = &mut running.parsed;
    match go_on(
        alloc,
        &mut run,
        &mut frames,
        parsed,
        state,
        Ok(value),
        watch,
    )? {
        Led::Over(outcome) => Ok(Handed::Has(outcome)),
        Led::Has(outcome) => {
            running.open(run, frames)?;
            watch.stands(running);
            Ok(Handed::Has(outcome))
        }
        // As `open` does: a run is wide, and a call would copy it once more for each procedure.
        Led::Begins(next) => {
            let frames = mem::replace(&mut running.frames, frames);
            let code = mem::replace(&mut running.code, Some(run));
            running.parts.push(Part { frames, code })?;
            Ok(Handed::Begins(next))
        }
    }
}

/// Hands an outcome to the code, once all frames are gone.
fn hand_down<A: Allocator + Copy, T: Watch<A, Running<A>, State<A>, Leaf<A, Waits<A>>>>(
    alloc: A,
    running: &mut Running<A>,
    state: &mut State<A>,
    outcome: Outcome<A>,
    watch: &mut T,
) -> Result<Handed<A>, NoMemory>
    ensures goes_on { (last : Onward) (s : Status) → FitsState state.old s →
        stack running.old.frames ≡ [] → IsBelow running.old last →
        IfOk result (λ handed. GoesOn handed running.new state.new
        (last s (outcome_of outcome))) }
    ensures left { IfOk result (λ _. state.new.left ≤ state.old.left) }
    ensures less { IfOk result (λ handed. state.new.left ≡ state.old.left →
        IsLess handed running.new
        (again_of (outcome_of outcome) + rest_of running.old)) }
    ensures falls { IfOk result (λ handed. state.new.left ≡ state.old.left →
        Falls handed running.old running.new) }
    ensures watched { T.told watch.old [] watch.new }
{
    let Some(run) = &mut running.code else {
        return Ok(running.end_part(outcome));
    };
    let frames = &mut running.frames;
    match go_on(
        alloc,
        run,
        frames,
        &mut running.parsed,
        state,
        outcome,
        watch,
    )? {
        Led::Over(last) => Ok(running.end_part(last)),
        Led::Has(next) => {
            watch.stands(running);
            Ok(Handed::Has(next))
        }
        Led::Begins(next) => Ok(Handed::Begins(next)),
    }
}

/// Hands an outcome to a code, up to the next command, which begins by its words, to a text, which
/// is put on top of the frames as what it is read as, or to the end.
fn go_on<A: Allocator + Copy, T: Watch<A, Running<A>, State<A>, Leaf<A, Waits<A>>>>(
    alloc: A,
    run: &mut Run<A>,
    frames: &mut Vec<Frame<A>, A>,
    parsed: &mut Parsed<A>,
    state: &mut State<A>,
    outcome: Outcome<A>,
    watch: &mut T,
) -> Result<Led<A>, NoMemory>
    ensures runs { (last next : Onward) (s : Status) → FitsState state.old s →
        stack frames.old ≡ [] → Awaits last run.old next → IfOk result (λ led.
        RunsOn last led (stack frames.new) run.new state.new (next s (outcome_of outcome))) }
    ensures above { IfOk result (λ led. IsAbove led (stack frames.old) (stack frames.new)) }
    ensures left { IfOk result (λ _. state.new.left ≤ state.old.left) }
    ensures less { IfOk result (λ led. state.new.left ≡ state.old.left →
        left_to_run led run.new ≤ again_of (outcome_of outcome) + begins_left run.old) }
    ensures onward { IfOk result (λ led. state.new.left ≡ state.old.left →
        IsOnward led run.old run.new) }
    ensures first { (said : ℕ) → IsFresh said run.old → IsValue outcome → IfOk result (λ led.
        state.new.left ≡ state.old.left → TicksFirst said led run.new) }
    ensures watched { T.told watch.old [] watch.new }
{
    match run.go_on(alloc, state, outcome)? {
        Progress::Begins => {
            let words = mem::replace(&mut run.spot.words, Vec::new(alloc));
            Ok(Led::Begins(Next::Call(words, run.spot.levels)))
        }
        Progress::Says => {
            let words = mem::replace(&mut run.spot.words, Vec::new(alloc));
            watch.says(words.as_slice());
            Ok(Led::Begins(Next::Says(words, run.spot.levels)))
        }
        Progress::Runs => {
            let words = run.spot.words.as_slice();
            let kept = &mut parsed.scripts;
            Ok(Led::Has(put_script(kept, frames, words, run.spot.levels)?))
        }
        Progress::Evaluates => {
            let words = run.spot.words.as_slice();
            let kept = &mut parsed.formulas;
            Ok(Led::Has(put_value(alloc, kept, frames, words, run.spot.levels)?))
        }
        Progress::Over => {
            let outcome = mem::replace(&mut run.spot.outcome, Ok(Value::empty()));
            watch.ends(&run.code, run.spot.place, &parsed.scripts, &outcome);
            Ok(Led::Over(outcome))
        }
        // It never stops otherwise: no code lacks an operand.
        _ => Ok(Led::Over(Ok(Value::empty()))),
    }
}

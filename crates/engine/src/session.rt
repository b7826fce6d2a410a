//! A run that stops at each act and continues with its answer.

ghost use Rattle.std.specs.Prelude.{◌≡◌, ℕ, List, [], ◌++◌, IfOk, IfErr};
ghost use Rattle.std.specs.Borrow.{sem};
ghost use Rattle.acts.specs.History.{History};
ghost use Rattle.engine.specs.Session.{end_in};
ghost use Rattle.machine.specs.Phases.{GivesAgain, IsTold, MayFail};
ghost use Rattle.machine.specs.View.{words_of};

use crate::Lead;
use acts::{Act, Answer, Limits, NoMemory};
use machine::answering::forward;
use machine::beginning::beginning;
use machine::{End, Phase, Running, Unwatched, Watch};
use state::State;
use std::alloc::Allocator;
use std::mem;
use tcltext::Value;

/// A run of a script that stops at each act. It is started, and then asked for its next step again
/// and again, with the answer to the last act, until it gives the end.
pub struct Session<A: Allocator> {
    running: Running<A>,
    state: State<A>,
    /// How many answers it has got.
    answers: u64,
    phase: Phase<A>,
}

impl<A: Allocator> Drop for Session<A> {
    fn drop(self) {
        let Session {
            running: _,
            state: _,
            answers: _,
            phase: _,
        } = self;
    }
}

/// What a session gives: an act to be performed, or the end.
pub enum Step<'a, A: Allocator> {
    Act(&'a Act<A>),
    End(&'a End<A>),
}

impl<A: Allocator + Copy> Session<A> {
    ghost use Rattle.engine.specs.Lending.{GoesOn};
    ghost use Rattle.engine.specs.Session.{IsAt, IsRefused, answered_so, has_end};
    ghost use Rattle.engine.specs.Step.{StepIs, TellsNext};

    /// A run of a script that has not begun. Of its arguments the first is `argv0`, the rest are
    /// `argv`.
    ///
    /// # Errors
    /// `NoMemory` where memory is refused.
    pub fn start(
        alloc: A,
        script: &[u8],
        args: &[Vec<u8, A>],
        limits: Limits,
    ) -> Result<Session<A>, NoMemory>
        ensures { IfOk result (λ session.
            IsAt session script.now (words_of args.now) limits.ticks []) }
    {
        Ok(Session {
            running: Running::begin(alloc, script)?,
            state: beginning(alloc, args, limits)?,
            answers: 0,
            phase: Phase::Has(Ok(Value::empty())),
        })
    }

    /// Continues to the next act or to the end, and lends it. The first call is without an answer
    /// (one that is given is dropped), each later one has the answer to the last act. After an end
    /// each call gives the same end.
    ///
    /// The remaining runs of the script are exactly those that begin with the acts so far and their
    /// answers: either each of them continues with the act that is given, and there is at least
    /// one; or the run is over, with the end that is given.
    ///
    /// # Errors
    /// `NoMemory` where memory is refused, which never happens while the run is closed or once it
    /// is over. Each later call gives the same refusal again.
    pub fn next(&mut self, answer: Option<Answer<A>>) -> Result<Step<'_, A>, NoMemory>
        ensures* goes_on { sem 𝓛 (GoesOn A.row A.Allocator self.entry answer result) }
    {
        self.go_on(answer, &mut Unwatched)?;
        Ok(self.step())
    }

    /// Continues to the next act or to the end, and tells who watches what is done on the way.
    pub(crate) fn go_on<T: Watch<A, Running<A>, State<A>, Lead<A>>>(
        &mut self,
        answer: Option<Answer<A>>,
        watch: &mut T,
    ) -> Result<(), NoMemory>
        ensures at { (text : List ℕ) (args : List (List ℕ)) (limit : ℕ) (past : History) →
            IsAt self.old text args limit past →
            IfOk result (λ _. IsAt self.new text args limit
            (past ++ answered_so self.old answer)) }
        ensures told { IfOk result (λ _. IsTold self.new.phase) }
        ensures refused { IfErr result (λ refusal. IsRefused refusal self.new) }
        ensures fails { IfErr result (λ _. MayFail self.old.phase answer) }
        ensures again { GivesAgain (λ _ end. self.new.phase ≡ end) self.old.phase result }
        ensures watched { T.told watch.old [] watch.new }
    {
        let alloc = *self.running.frames.allocator();
        // A placeholder while the session goes on; nothing sees it.
        let phase = mem::replace(&mut self.phase, Phase::Over(End::NoMore));
        let answers = &mut self.answers;
        match forward(
            alloc,
            &mut self.running,
            &mut self.state,
            answers,
            phase,
            answer,
            watch,
        ) {
            Ok(phase) => {
                self.phase = phase;
                Ok(())
            }
            Err(refusal) => {
                self.phase = Phase::Refused(refusal);
                Err(refusal)
            }
        }
    }

    /// The act that waits for its answer, or the end.
    pub(crate) fn step(&self) -> Step<'_, A>
        requires { IsTold self.now.phase }
        ensures given { StepIs result self.now.phase }
        ensures tells { (text : List ℕ) (args : List (List ℕ)) (limit : ℕ) (past : History) →
            IsAt self.now text args limit past → TellsNext result text args limit past }
    {
        match &self.phase {
            Phase::Asks(act, _) | Phase::Closes(act, _) => Step::Act(act),
            Phase::Over(end) => Step::End(end),
            Phase::Has(_) | Phase::Refused(_) => unreachable!(),
        }
    }

    /// The end of the run, if it is over.
    pub fn into_end(self) -> Option<End<A>>
        ensures { result ≡ has_end self }
    {
        end_of(self.into_phase())
    }

    /// How far the run has come.
    fn into_phase(self) -> Phase<A>
        ensures { result ≡ self.phase }
    {
        let Session {
            running: _,
            state: _,
            answers: _,
            phase,
        } = self;
        phase
    }
}

/// The end of a run that has come so far, if it is over.
fn end_of<A: Allocator + Copy>(phase: Phase<A>) -> Option<End<A>>
    ensures { result ≡ end_in phase }
{
    match phase {
        Phase::Over(end) => Some(end),
        Phase::Has(_) => None,
        Phase::Asks(_, _) => None,
        Phase::Closes(_, _) => None,
        Phase::Refused(_) => None,
    }
}

//! How far a command that runs scripts has come by its words.

ghost use Rattle.std.specs.Prelude.{◌≡◌, IfOk, Result};
ghost use Rattle.acts.specs.Flaw as flaw;
ghost use Rattle.acts.specs.Raise.{Answers};
ghost use Rattle.code.specs.Doing.{doing_of};
ghost use Rattle.code.specs.Doing as definition;
ghost use Rattle.nesting.specs.Doing.{done_by};
ghost use Rattle.nesting.specs.Eval as evals;
ghost use Rattle.nesting.specs.Nesting.{course_of};
ghost use Rattle.nesting.specs.View.{course_of_begun, next_of};
ghost use Rattle.state.specs.Prelude.{Status};

use crate::held::Held;
use crate::{Nesting, eval};
use acts::{NoMemory, Raise};
use code::{Doing, Made};
use state::Outcome;
use state::outcome::raised;
use std::alloc::Allocator;

/// How far a command that runs scripts has come by its words. A number says how many levels may
/// still nest in what is begun.
#[derive(Drop)]
pub enum Begun<A: Allocator> {
    /// It is over.
    Has(Outcome<A>),
    /// This runs in its place.
    Runs(Made<A>, u8),
    /// This is done in its place.
    Does(Doing<A>, u8),
    /// A script or a formula runs within it, whose outcome goes to what is held.
    Holds(Made<A>, u8, Held<A>),
}

/// What a command does whose words are read as this, or its error.
pub(crate) fn from_words<A: Allocator + Copy>(
    alloc: A,
    read: Result<Doing<A>, Raise<A>>,
    levels: u8,
) -> Result<Begun<A>, NoMemory>
    ensures { (meant : Result definition.Doing flaw.Flaw) (s : Status) →
        Answers doing_of meant read →
        IfOk result (λ begun. done_by levels s meant ≡ course_of_begun begun s) }
{
    match read {
        Ok(doing) => Ok(Begun::Does(doing, levels)),
        Err(Raise::Fault(fault)) => Ok(Begun::Has(raised(alloc, fault)?)),
        Err(Raise::NoMemory(refusal)) => Err(refusal),
    }
}

/// How far `eval`, or `switch`, has come.
pub(crate) fn from_eval<A: Allocator>(nesting: Nesting<A, eval::Held>) -> Begun<A>
    ensures { (s : Status) → course_of evals.next_of nesting s ≡ course_of_begun result s }
{
    match nesting {
        Nesting::Has(outcome) => Begun::Has(outcome),
        Nesting::Runs(it, levels, _) => Begun::Runs(it, levels),
    }
}

/// How far a command has come that holds something meanwhile.
pub(crate) fn from_held<A: Allocator>(nesting: Nesting<A, Held<A>>) -> Begun<A>
    ensures { (s : Status) → course_of next_of nesting s ≡ course_of_begun result s }
{
    match nesting {
        Nesting::Has(outcome) => Begun::Has(outcome),
        Nesting::Runs(it, levels, held) => Begun::Holds(it, levels, held),
    }
}

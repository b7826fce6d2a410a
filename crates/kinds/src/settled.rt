//! How a command that answers an error ends.

ghost use Rattle.std.specs.Prelude.{IfOk};
ghost use Rattle.kinds.specs.Answers.{IsFailure, Settles};

use acts::{NoMemory, Raise};
use state::outcome::raised;
use state::{Leaf, Outcome};
use std::alloc::Allocator;

/// How far a command has come; one that answers an error ends with that error.
///
/// # Errors
/// `NoMemory` where the command was refused memory, or the text of its error is.
#[inline(always)]
pub fn settle<A: Allocator + Copy, W: Drop>(
    alloc: A,
    answer: Result<Leaf<A, W>, Raise<A>>,
) -> Result<Leaf<A, W>, NoMemory>
    ensures { IfOk result (λ leaf. Settles answer leaf) }
{
    match answer {
        // Not `Ok(leaf)`, which would move an act where there is an outcome alone.
        Ok(Leaf::Has(outcome)) => Ok(Leaf::Has(outcome)),
        Ok(Leaf::Asks(act, waits)) => Ok(Leaf::Asks(act, waits)),
        Err(Raise::Fault(fault)) => Ok(Leaf::Has(raised(alloc, fault)?)),
        Err(Raise::NoMemory(refusal)) => Err(refusal),
    }
}

/// How a command ends with an error.
///
/// # Errors
/// `NoMemory` where the command was refused memory, or the text of its error is.
pub fn failed<A: Allocator + Copy>(alloc: A, why: Raise<A>) -> Result<Outcome<A>, NoMemory>
    ensures { IfOk result (λ outcome. IsFailure why outcome) }
{
    match why {
        Raise::Fault(fault) => raised(alloc, fault),
        Raise::NoMemory(refusal) => Err(refusal),
    }
}

//! The errors of a command that does not take its words.

ghost use Rattle.std.specs.Prelude.{◌≡◌, IfOk};
ghost use Rattle.state.specs.Prelude.{text_of, Leaves, Error, outcome_of};
ghost use Rattle.acts.specs.Flaw as flaw;

use acts::{Fault, NoMemory};
use state::Outcome;
use state::outcome::raised;
use std::alloc::Allocator;

/// The error of a command that was given another number of words than it takes.
pub(crate) fn wrong_args<A: Allocator + Copy>(
    alloc: A,
    command: &[u8],
) -> Result<Outcome<A>, NoMemory>
    ensures { IfOk result (λ outcome.
        outcome_of outcome ≡ Leaves Error (text_of (flaw.WrongArgs command.now))) }
{
    raised(alloc, Fault::WrongArgs(Vec::from_slice(alloc, command)?))
}

/// The error of a word that a command does not take.
pub(crate) fn bad_argument<A: Allocator + Copy>(
    alloc: A,
    word: &[u8],
    command: &[u8],
) -> Result<Outcome<A>, NoMemory>
    ensures { IfOk result (λ outcome.
        outcome_of outcome ≡ Leaves Error (text_of (flaw.BadArgument word.now command.now))) }
{
    let word = Vec::from_slice(alloc, word)?;
    let command = Vec::from_slice(alloc, command)?;
    raised(alloc, Fault::BadArgument { word, command })
}

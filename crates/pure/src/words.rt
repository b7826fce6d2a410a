//! The errors of the words of a command, and the text of a number.

ghost use Rattle.std.specs.Prelude.{◌≡◌, IfOk, decimal};
ghost use Rattle.acts.specs.Flaw as flaw;
ghost use Rattle.meanings.specs.Meaning.{Raises};
ghost use Rattle.meanings.specs.View.{Answers};

use acts::{Fault, Raise};
use memory::NoMemory;
use std::alloc::Allocator;
use tcltext::{Value, print_nat};

/// The error of a command that was given another number of words than it takes.
pub fn wrong_args<A: Allocator + Copy>(alloc: A, command: &[u8]) -> Result<Value<A>, Raise<A>>
    ensures { Answers (Raises (flaw.WrongArgs command.now)) result }
{
    let command = Vec::from_slice(alloc, command)?;
    Err(Raise::Fault(Fault::WrongArgs(command)))
}

/// The error of a command that does not accept this word.
pub fn bad_argument<A: Allocator + Copy>(
    alloc: A,
    word: &[u8],
    command: &[u8],
) -> Result<Value<A>, Raise<A>>
    ensures { Answers (Raises (flaw.BadArgument word.now command.now)) result }
{
    let word = Vec::from_slice(alloc, word)?;
    let command = Vec::from_slice(alloc, command)?;
    Err(Raise::Fault(Fault::BadArgument { word, command }))
}

/// The text of a number.
pub fn number<A: Allocator + Copy>(alloc: A, n: usize) -> Result<Value<A>, NoMemory>
    ensures { IfOk result (λ text. text ≡ decimal n) }
{
    match i64::try_from(n) {
        Ok(n) => Value::int(alloc, n),
        Err(_) => Value::new(alloc, print_nat(alloc, n as u64)?),
    }
}

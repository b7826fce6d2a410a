//! Why a command, or a part of one, gives no answer.

ghost use Rattle.std.specs.Prelude.{Some};
ghost use Rattle.acts.specs.Flaw as flaw;
ghost use Rattle.acts.specs.Raise.{Raises};

use crate::fault::Fault;
use memory::NoMemory;
use std::alloc::{AllocError, AllocFailed, Allocator};

/// Why a command, or a part of one, gives no answer.
#[derive(Debug, Drop)]
pub enum Raise<A: Allocator> {
    /// The script's error.
    Fault(Fault<A>),
    /// Memory was refused, as this refusal says.
    NoMemory(NoMemory),
}

impl<A: Allocator> From<NoMemory> for Raise<A> {
    ghost use Rattle.acts.specs.Raise.{WantsMemory};

    ghost from_gives = { λ _ raise. WantsMemory raise };

    fn from(refusal: NoMemory) -> Raise<A> {
        Raise::NoMemory(refusal)
    }
}

impl<A: Allocator> From<AllocError> for Raise<A> {
    ghost use Rattle.acts.specs.Raise.{WantsMemory};

    ghost from_gives = { λ _ raise. WantsMemory raise };

    fn from(refusal: AllocError) -> Raise<A> {
        Raise::NoMemory(refusal.into())
    }
}

impl<A: Allocator, T: Drop> From<AllocFailed<T>> for Raise<A> {
    ghost use Rattle.acts.specs.Raise.{WantsMemory};

    ghost from_gives = { λ _ raise. WantsMemory raise };

    fn from(failed: AllocFailed<T>) -> Raise<A> {
        Raise::NoMemory(failed.into())
    }
}

/// The error of a command that was given a wrong number of words.
pub fn wrong_args<A: Allocator + Copy>(alloc: A, command: &[u8]) -> Raise<A>
    ensures { Raises (flaw.WrongArgs command.now) result }
{
    match Vec::from_slice(alloc, command) {
        Ok(command) => Raise::Fault(Fault::WrongArgs(command)),
        Err(refusal) => refusal.into(),
    }
}

/// The error of a word that a command does not take.
pub fn bad_argument<A: Allocator + Copy>(alloc: A, word: &[u8], command: &[u8]) -> Raise<A>
    ensures { Raises (flaw.BadArgument word.now command.now) result }
{
    let word = match Vec::from_slice(alloc, word) {
        Ok(word) => word,
        Err(refusal) => return refusal.into(),
    };
    match Vec::from_slice(alloc, command) {
        Ok(command) => Raise::Fault(Fault::BadArgument { word, command }),
        Err(refusal) => refusal.into(),
    }
}

/// The error of a word that begins with `-` and is no flag of the command.
pub fn bad_flag<A: Allocator + Copy>(alloc: A, word: &[u8]) -> Raise<A>
    ensures { Raises (flaw.BadFlag word.now) result }
{
    match Vec::from_slice(alloc, word) {
        Ok(word) => Raise::Fault(Fault::BadFlag(word)),
        Err(refusal) => refusal.into(),
    }
}

/// The error of a text that is no whole number.
pub fn not_a_number<A: Allocator + Copy>(alloc: A, text: &[u8]) -> Raise<A>
    ensures { Raises (flaw.NotANumber text.now) result }
{
    match Vec::from_slice(alloc, text) {
        Ok(text) => Raise::Fault(Fault::NotANumber(text)),
        Err(refusal) => refusal.into(),
    }
}

/// The error of an id that is not open, by the text that names it.
pub fn not_open<A: Allocator + Copy>(alloc: A, text: &[u8]) -> Raise<A>
    ensures { Raises (flaw.NotOpen (Some text.now)) result }
{
    match Vec::from_slice(alloc, text) {
        Ok(text) => Raise::Fault(Fault::NotOpen(Some(text))),
        Err(refusal) => refusal.into(),
    }
}

//! What commands ask about their words: whether a word is a flag, and which number it is.

ghost use Rattle.std.specs.Prelude.{◌≡◌, IfOk};
ghost use Rattle.state.specs.Prelude.{text_of, Leaves, Error};
ghost use Rattle.acts.specs.Flaw as flaw;
ghost use Rattle.state.specs.Arguments as words;
ghost use Rattle.state.specs.Leaf.{HasOutcome};
ghost use Rattle.state.specs.Variables.{whole_of};
ghost use Rattle.tcltext.specs.Numbers as numbers;

use crate::leaf::{Leaf, raises};
use acts::{Fault, NoMemory};
use std::alloc::Allocator;
use tcltext::{Value, read_int};

/// Ends a command with the error that it was given another number of words than it takes.
pub fn wrong_args<A: Allocator + Copy, W: Drop>(
    alloc: A,
    command: &[u8],
) -> Result<Leaf<A, W>, NoMemory>
    ensures { IfOk result (λ leaf.
        HasOutcome leaf (Leaves Error (text_of (flaw.WrongArgs command.now)))) }
{
    raises(alloc, Fault::WrongArgs(Vec::from_slice(alloc, command)?))
}

/// Whether a word begins with a dash.
pub fn begins_with_dash(word: &[u8]) -> bool
    ensures { result ≡ words.begins_with_dash word.now }
{
    matches!(word, [b'-', ..])
}

/// Whether a word begins with a dash and is no number, so that it would be a flag.
pub fn is_flag(word: &[u8]) -> bool
    ensures { result ≡ words.is_flag word.now }
{
    begins_with_dash(word) && !is_number(word)
}

/// The whole number within 64 bits that a word is, if it is one.
pub fn whole_number(word: &[u8]) -> Option<i64>
    ensures { result ≡ whole_of word.now }
{
    read_int(word)
}

/// The whole number within 64 bits that a value is, if it is one.
pub fn whole_number_in<A: Allocator>(value: &Value<A>) -> Option<i64>
    ensures { result ≡ whole_of value.now }
{
    value.number()
}

/// Whether a word is a whole number within 64 bits.
fn is_number(word: &[u8]) -> bool
    ensures { result ≡ numbers.is_number word.now }
{
    read_int(word).is_some()
}

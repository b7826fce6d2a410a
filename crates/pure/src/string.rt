//! `string subcommand ..` (string(n)).

ghost use Rattle.std.specs.Prelude.{◌≡◌};
ghost use Rattle.pure.specs.Strings as meant;
ghost use Rattle.names.specs.Tables.{found, so_long};
ghost use Rattle.meanings.specs.View.{Answers};

mod case;
mod compare;
mod matching;
mod part;
mod search;
mod trimming;

use crate::words::{bad_argument, wrong_args};
use acts::Raise;
use case::{tolower, toupper};
use compare::{compare, equal};
use matching::matches;
use part::{index, length, range};
use search::{first, last};
use std::alloc::Allocator;
use tcltext::Value;
use trimming::{at_both_ends, at_the_end, in_front};

/// A subcommand of `string`.
#[derive(Clone, Copy, Debug, PartialEq, Eq)]
pub enum Subcommand {
    Length,
    Index,
    Range,
    Equal,
    Compare,
    Match,
    ToLower,
    ToUpper,
    Trim,
    TrimLeft,
    TrimRight,
    First,
    Last,
}

impl Subcommand {
    /// The subcommand that has this name, if one has; only names of the same length are compared.
    fn named(name: &[u8]) -> Option<Subcommand>
        ensures { result ≡ meant.named name.now }
    {
        match name.len() {
            4 => of_four(name),
            5 => of_five(name),
            6 => of_six(name),
            7 => of_seven(name),
            8 => of_eight(name),
            9 => of_nine(name),
            _ => None,
        }
    }

    /// Runs the subcommand on the words after its name.
    fn apply<A: Allocator + Copy>(self, alloc: A, words: &[Value<A>]) -> Result<Value<A>, Raise<A>>
        ensures { Answers (meant.does self words.now) result }
    {
        match self {
            Subcommand::Length => length(alloc, words),
            Subcommand::Index => index(alloc, words),
            Subcommand::Range => range(alloc, words),
            Subcommand::Equal => equal(alloc, words),
            Subcommand::Compare => compare(alloc, words),
            Subcommand::Match => matches(alloc, words),
            Subcommand::ToLower => tolower(alloc, words),
            Subcommand::ToUpper => toupper(alloc, words),
            Subcommand::Trim => at_both_ends(alloc, words),
            Subcommand::TrimLeft => in_front(alloc, words),
            Subcommand::TrimRight => at_the_end(alloc, words),
            Subcommand::First => first(alloc, words),
            Subcommand::Last => last(alloc, words),
        }
    }
}

/// Finds a subcommand by its name and runs it on the words after the name.
pub fn string<A: Allocator + Copy>(alloc: A, words: &[Value<A>]) -> Result<Value<A>, Raise<A>>
    ensures { Answers (meant.string words.now) result }
{
    let [name, words @ ..] = words else {
        return wrong_args(alloc, b"string");
    };
    match Subcommand::named(name.as_slice()) {
        Some(subcommand) => subcommand.apply(alloc, words),
        None => bad_argument(alloc, name.as_slice(), b"string"),
    }
}

/// The subcommand of a name of four bytes.
fn of_four(name: &[u8]) -> Option<Subcommand>
    ensures { result ≡ found (so_long 4 meant.subcommands) name.now }
{
    if name == b"trim".as_slice() {
        Some(Subcommand::Trim)
    } else if name == b"last".as_slice() {
        Some(Subcommand::Last)
    } else {
        None
    }
}

/// The subcommand of a name of five bytes.
#[tactic(auto, using(names::proofs::Compared::compared))]
fn of_five(name: &[u8]) -> Option<Subcommand>
    ensures { result ≡ found (so_long 5 meant.subcommands) name.now }
{
    match name {
        b"index" => Some(Subcommand::Index),
        b"range" => Some(Subcommand::Range),
        b"equal" => Some(Subcommand::Equal),
        b"match" => Some(Subcommand::Match),
        b"first" => Some(Subcommand::First),
        _ => None,
    }
}

/// The subcommand of a name of six bytes.
fn of_six(name: &[u8]) -> Option<Subcommand>
    ensures { result ≡ found (so_long 6 meant.subcommands) name.now }
{
    if name == b"length".as_slice() {
        Some(Subcommand::Length)
    } else {
        None
    }
}

/// The subcommand of a name of seven bytes.
#[tactic(auto, using(names::proofs::Compared::compared))]
fn of_seven(name: &[u8]) -> Option<Subcommand>
    ensures { result ≡ found (so_long 7 meant.subcommands) name.now }
{
    match name {
        b"compare" => Some(Subcommand::Compare),
        b"tolower" => Some(Subcommand::ToLower),
        b"toupper" => Some(Subcommand::ToUpper),
        _ => None,
    }
}

/// The subcommand of a name of eight bytes.
fn of_eight(name: &[u8]) -> Option<Subcommand>
    ensures { result ≡ found (so_long 8 meant.subcommands) name.now }
{
    if name == b"trimleft".as_slice() {
        Some(Subcommand::TrimLeft)
    } else {
        None
    }
}

/// The subcommand of a name of nine bytes.
fn of_nine(name: &[u8]) -> Option<Subcommand>
    ensures { result ≡ found (so_long 9 meant.subcommands) name.now }
{
    if name == b"trimright".as_slice() {
        Some(Subcommand::TrimRight)
    } else {
        None
    }
}

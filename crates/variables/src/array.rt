//! `array subcommand ..` (array(n)).

ghost use Rattle.std.specs.Prelude.{◌≡◌};
ghost use Rattle.acts.specs.Raise.{Answers};
ghost use Rattle.variables.specs.Array as definition;
ghost use Rattle.variables.specs.Array.Words as asked;
ghost use Rattle.kinds.specs.Readings.{Leaves};

mod array_names;
mod exists;
mod get;
mod indexes;
mod set;
mod size;
mod unset;

use acts::Raise;
use acts::raise::{bad_argument, wrong_args};
use std::alloc::Allocator;
use tclstate::Scopes;
use tcltext::Value;

/// The subcommands of `array`.
#[derive(Clone, Copy, Debug, PartialEq, Eq)]
pub enum Subcommand {
    Exists,
    Get,
    Names,
    Set,
    Size,
    Unset,
}

impl Subcommand {
    /// The subcommand of a name.
    fn named(name: &[u8]) -> Option<Subcommand>
        ensures { result ≡ definition.named name.now }
    {
        if name == b"exists".as_slice() {
            Some(Subcommand::Exists)
        } else if name == b"get".as_slice() {
            Some(Subcommand::Get)
        } else if name == b"names".as_slice() {
            Some(Subcommand::Names)
        } else if name == b"set".as_slice() {
            Some(Subcommand::Set)
        } else if name == b"size".as_slice() {
            Some(Subcommand::Size)
        } else if name == b"unset".as_slice() {
            Some(Subcommand::Unset)
        } else {
            None
        }
    }

    /// Does the subcommand with the words after its name.
    fn apply<A: Allocator + Copy>(
        self,
        alloc: A,
        scopes: &mut Scopes<A>,
        words: &[Value<A>],
    ) -> Result<Value<A>, Raise<A>>
        ensures { Leaves (definition.does self words.now scopes.old) result scopes.new }
    {
        match self {
            Subcommand::Exists => exists::exists(alloc, scopes, words),
            Subcommand::Get => get::get(alloc, scopes, words),
            Subcommand::Names => array_names::names(alloc, scopes, words),
            Subcommand::Set => set::set(alloc, scopes, words),
            Subcommand::Size => size::size(alloc, scopes, words),
            Subcommand::Unset => unset::unset(alloc, scopes, words),
        }
    }
}

/// Reads, writes or removes the elements of an array, by the subcommand that comes first.
///
/// # Errors
/// There is no such subcommand, or it does not take these words or this variable; or memory is
/// refused.
pub fn begin<A: Allocator + Copy>(
    alloc: A,
    scopes: &mut Scopes<A>,
    args: &[Value<A>],
) -> Result<Value<A>, Raise<A>>
    ensures { Leaves (definition.array args.now scopes.old) result scopes.new }
{
    let [name, words @ ..] = args else {
        return Err(wrong_args(alloc, b"array"));
    };
    match Subcommand::named(name.as_slice()) {
        Some(subcommand) => subcommand.apply(alloc, scopes, words),
        None => Err(bad_argument(alloc, name.as_slice(), b"array")),
    }
}

/// The word that names an array, where it stands alone.
fn one_word<A: Allocator + Copy>(alloc: A, words: &[Value<A>]) -> Result<&[u8], Raise<A>>
    ensures { Answers (λ word. word.now) (asked.one_word words.now) result }
{
    match words {
        [word] => Ok(word.as_slice()),
        _ => Err(wrong_args(alloc, b"array")),
    }
}

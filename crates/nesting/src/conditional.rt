//! `if test ?then? body ?elseif test ?then? body ..? ?else? ?body?` (if(n)).

ghost use Rattle.acts.specs.Raise.{Answers};
ghost use Rattle.code.specs.Doing.{doing_of};
ghost use Rattle.nesting.specs.Doing.{if_words};

use acts::Raise;
use acts::raise::wrong_args;
use code::Doing;
use code::branches::Branches;
use std::alloc::Allocator;
use tcltext::Value;

/// Reads the words after the name: all of them, before any test is read as a formula.
pub(crate) fn read<A: Allocator + Copy>(alloc: A, args: &[Value<A>]) -> Result<Doing<A>, Raise<A>>
    ensures { Answers doing_of (if_words args.now) result }
{
    match Branches::read(alloc, args)? {
        Some(branches) => Ok(Doing::If(branches)),
        None => Err(wrong_args(alloc, b"if")),
    }
}

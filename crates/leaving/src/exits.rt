//! The commands that end a part of a script, or the whole run, as one table.

ghost use Rattle.state.specs.Prelude.{Answers, outcome_of};
ghost use Rattle.leaving.specs.Exits as definition;
ghost use Rattle.state.specs.View.{code_of};

use crate::exp_continue::exp_continue;
use acts::Raise;
use acts::raise::wrong_args;
use kinds::words::number_of;
use state::{Code, Leave, Outcome, Stop};
use std::alloc::Allocator;
use tcltext::Value;

/// A command that ends a part of a script, or the whole run.
#[derive(Clone, Copy, Debug, PartialEq, Eq)]
pub enum Exit {
    /// `break` ends the loop around it (break(n)).
    Break,
    /// `continue` begins the next turn of the loop around it (continue(n)).
    Continue,
    /// `return` leaves the procedure or the script around it (return(n)).
    Return,
    /// `error` ends with an error (error(n)).
    Error,
    /// `exit` ends the whole run (exit(n)).
    Exit,
    /// `exp_continue` continues the `expect` around it (expect(1), exp_continue).
    ExpContinue,
}

/// Performs a command with the words after its name.
///
/// # Errors
/// The command does not take these words; or memory is refused.
#[inline(always)]
pub fn leave<A: Allocator + Copy>(
    alloc: A,
    exit: Exit,
    args: &[Value<A>],
) -> Result<Outcome<A>, Raise<A>>
    ensures { Answers outcome_of (definition.leaves exit args.now) result }
{
    match exit {
        Exit::Break => plain(alloc, Code::Break, args, b"break"),
        Exit::Continue => plain(alloc, Code::Continue, args, b"continue"),
        Exit::Return => returns(alloc, args),
        Exit::Error => error(alloc, args),
        Exit::Exit => exit_run(alloc, args),
        Exit::ExpContinue => exp_continue(alloc, args),
    }
}

/// Leaves with a code and no value, by a command without words.
fn plain<A: Allocator + Copy>(
    alloc: A,
    code: Code,
    args: &[Value<A>],
    command: &[u8],
) -> Result<Outcome<A>, Raise<A>>
    ensures { Answers outcome_of (definition.plain (code_of code) command.now args.now) result }
{
    match args {
        [] => Ok(Err(Leave::Coded(code, Value::empty()))),
        _ => Err(wrong_args(alloc, command)),
    }
}

/// Leaves with a value, which is empty where none is named.
fn returns<A: Allocator + Copy>(alloc: A, args: &[Value<A>]) -> Result<Outcome<A>, Raise<A>>
    ensures { Answers outcome_of (definition.returns args.now) result }
{
    match args {
        [] => Ok(Err(Leave::Coded(Code::Return, Value::empty()))),
        [value] => Ok(Err(Leave::Coded(Code::Return, value.share()?))),
        _ => Err(wrong_args(alloc, b"return")),
    }
}

/// Ends with an error of this text.
fn error<A: Allocator + Copy>(alloc: A, args: &[Value<A>]) -> Result<Outcome<A>, Raise<A>>
    ensures { Answers outcome_of (definition.error args.now) result }
{
    match args {
        [text] => Ok(Err(Leave::Coded(Code::Error, text.share()?))),
        _ => Err(wrong_args(alloc, b"error")),
    }
}

/// Ends the whole run with a number, which is 0 where none is named.
fn exit_run<A: Allocator + Copy>(alloc: A, args: &[Value<A>]) -> Result<Outcome<A>, Raise<A>>
    ensures { Answers outcome_of (definition.exit args.now) result }
{
    match args {
        [] => Ok(Err(Leave::Stopped(Stop::Exit(0)))),
        [word] => Ok(Err(Leave::Stopped(Stop::Exit(number_of(alloc, word.as_slice())?)))),
        _ => Err(wrong_args(alloc, b"exit")),
    }
}

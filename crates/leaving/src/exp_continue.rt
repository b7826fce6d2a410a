//! `exp_continue ?-continue_timer?` (expect(1), exp_continue).

ghost use Rattle.std.specs.Prelude.{◌≡◌};
ghost use Rattle.state.specs.Prelude.{Answers, Raises, outcome_of};
ghost use Rattle.leaving.specs.ExpContinue as definition;

use acts::Raise;
use acts::raise::bad_argument;
use kinds::usage::{Usage, after_flag};
use state::{Code, Leave, Outcome};
use std::alloc::Allocator;
use tcltext::Value;

const USAGE: Usage<'static> = Usage {
    command: b"exp_continue",
    flags: &[b"-continue_timer"],
};

/// Continues the `expect` around the command, whose timer starts anew unless the flag keeps it
/// running.
///
/// # Errors
/// There is a word other than the flag; or memory is refused for the error.
pub(crate) fn exp_continue<A: Allocator + Copy>(
    alloc: A,
    args: &[Value<A>],
) -> Result<Outcome<A>, Raise<A>>
    ensures { Answers outcome_of (definition.exp_continue args.now) result }
{
    let (running, words) = after_flag(args, b"-continue_timer");
    match words {
        [] => Ok(again(running)),
        [word, more @ ..] => {
            let alone = !running && more.is_empty();
            Err(refuse(alloc, alone, word.as_slice()))
        }
    }
}

/// The error of a word that is not allowed: one that stands alone is reported as a bad argument,
/// whatever it is.
fn refuse<A: Allocator + Copy>(alloc: A, alone: bool, word: &[u8]) -> Raise<A>
    ensures { Raises (definition.refused alone word.now) result }
{
    if alone {
        bad_argument(alloc, word, b"exp_continue")
    } else {
        USAGE.misplaced(alloc, word)
    }
}

/// The outcome by which the `expect` continues, and its timer keeps running or starts anew.
fn again<A: Allocator>(running: bool) -> Outcome<A>
    ensures { outcome_of result ≡ definition.again running }
{
    let code = if running {
        Code::AgainRunning
    } else {
        Code::Again
    };
    Err(Leave::Coded(code, Value::empty()))
}

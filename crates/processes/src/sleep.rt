//! `sleep n` (expect(1), sleep).

ghost use Rattle.kinds.specs.Answers.{GoesOn, Talks};
ghost use Rattle.processes.specs.Sleep as definition;
ghost use Rattle.state.specs.Prelude.{Status, FitsState};

use acts::raise::{bad_argument, wrong_args};
use acts::{Act, Raise};
use kinds::words::number_of;
use state::leaf::empty;
use state::{Leaf, State};
use std::alloc::Allocator;
use tcltext::Value;

/// What waits for the answer to an act.
#[derive(Clone, Copy, Debug, PartialEq, Eq)]
pub enum Waits {
    /// The time is over, and so is the command.
    Slept,
}

/// Begins to sleep for as many seconds as the word says.
///
/// # Errors
/// There is not one word, or the word is no number or a number below 0; or memory is refused.
pub fn begin<A: Allocator + Copy>(
    alloc: A,
    state: &State<A>,
    args: &[Value<A>],
) -> Result<Leaf<A, Waits>, Raise<A>>
    ensures { (s : Status) → FitsState state.now s →
        Talks definition.next_of (definition.sleep args.now) s result state.now }
{
    let [word] = args else {
        return Err(wrong_args(alloc, b"sleep"));
    };
    let number = number_of(alloc, word.as_slice())?;
    if number < 0 {
        return Err(bad_argument(alloc, word.as_slice(), b"sleep"));
    }
    Ok(Leaf::Asks(Act::Sleep(number.unsigned_abs()), Waits::Slept))
}

/// Continues the command after the sleep, whatever the answer is.
///
/// # Errors
/// There are none.
pub fn answered<A: Allocator>(state: &State<A>) -> Result<Leaf<A, Waits>, Raise<A>>
    ensures { (s : Status) → FitsState state.now s →
        GoesOn definition.next_of definition.follows s result state.now }
{
    Ok(empty())
}

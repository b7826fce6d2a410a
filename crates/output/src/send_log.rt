//! `send_log ?--? t` (expect(1), send_log).

ghost use Rattle.kinds.specs.Answers.{Talks};
ghost use Rattle.output.specs.SendLog as definition;
ghost use Rattle.state.specs.Prelude.{Status, FitsState};
ghost use Rattle.output.specs.Channel.{next_of};

use crate::channel::{Waits, note};
use acts::Raise;
use kinds::usage::Usage;
use state::{Leaf, State};
use std::alloc::Allocator;
use tcltext::Value;

const USAGE: Usage<'static> = Usage {
    command: b"send_log",
    flags: &[b"--"],
};

/// Begins to write a text to the log, where one is open.
///
/// # Errors
/// The words are too few or too many, or a flag stands among them; or memory is refused.
pub fn begin<A: Allocator + Copy>(
    alloc: A,
    state: &State<A>,
    args: &[Value<A>],
) -> Result<Leaf<A, Waits>, Raise<A>>
    ensures { (s : Status) → FitsState state.now s →
        Talks next_of (definition.send_log args.now s) s result state.now }
{
    let text = USAGE.text(alloc, args)?;
    Ok(note(state, Vec::from_slice(alloc, text)?))
}

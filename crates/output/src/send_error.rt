//! `send_error ?--? t` (expect(1), send_error).

ghost use Rattle.kinds.specs.Answers.{Talks};
ghost use Rattle.output.specs.SendError as definition;
ghost use Rattle.state.specs.Prelude.{Status, FitsState};
ghost use Rattle.state.specs.declared.state.State.{State as Kept};
ghost use Rattle.output.specs.Channel.{next_of};

use crate::channel::{Channel, Waits, write};
use acts::Raise;
use kinds::usage::Usage;
use state::Leaf;
use std::alloc::Allocator;
use tcltext::Value;

const USAGE: Usage<'static> = Usage {
    command: b"send_error",
    flags: &[b"--"],
};

/// Begins to write a text to standard error.
///
/// # Errors
/// The words are too few or too many, or a flag stands among them; or memory is refused.
pub fn begin<A: Allocator + Copy>(alloc: A, args: &[Value<A>]) -> Result<Leaf<A, Waits>, Raise<A>>
    ensures { (s : Status) (state : Kept A) → FitsState state s →
        Talks next_of (definition.send_error args.now) s result state }
{
    let text = USAGE.text(alloc, args)?;
    Ok(write(Channel::Errors, Vec::from_slice(alloc, text)?))
}

//! `socket host port` (socket(n)).

ghost use Rattle.std.specs.Prelude.{◌≡◌, ◌≤◌};
ghost use Rattle.state.specs.Prelude.{deed_of, reply_of, Answers, Raises, Status, FitsState};
ghost use Rattle.kinds.specs.Answers.{GoesOn, Talks};
ghost use Rattle.processes.specs.Socket as definition;

use crate::numbers::{next_id, open_next, skip_next};
use acts::decimal::push_decimal;
use acts::raise::{bad_argument, wrong_args};
use acts::{Act, Answer, Fault, Raise};
use dialog::Kind;
use kinds::words::number_of;
use state::leaf::gives;
use state::{Leaf, State};
use std::alloc::Allocator;
use tcltext::Value;

/// What waits for the answer to an act.
#[derive(Clone, Copy, Debug, PartialEq, Eq)]
pub enum Waits {
    /// The server is reached, and the id of the connection is opened.
    Connected,
}

/// Begins to call a server under the next number.
///
/// # Errors
/// There are not two words, the second is no port, or no id is left; or memory is refused.
pub fn begin<A: Allocator + Copy>(
    alloc: A,
    state: &State<A>,
    args: &[Value<A>],
) -> Result<Leaf<A, Waits>, Raise<A>>
    ensures { (s : Status) → FitsState state.now s →
        Talks definition.next_of (definition.socket args.now s) s result state.now }
{
    let (host, word) = two_words(alloc, args)?;
    let port = port_said(alloc, word)?;
    let id = next_id(state)?;
    let name = Vec::from_slice(alloc, host)?;
    Ok(Leaf::Asks(Act::Connect(id, name, port), Waits::Connected))
}

/// Continues the command with the answer to the call: opens an id, or uses the number up.
///
/// # Errors
/// The server could not be reached, or no id is left; or memory is refused.
pub fn answered<A: Allocator + Copy>(
    alloc: A,
    state: &mut State<A>,
    act: Act<A>,
    answer: Answer<A>,
) -> Result<Leaf<A, Waits>, Raise<A>>
    ensures shows { (s : Status) → FitsState state.old s → GoesOn definition.next_of
        (definition.follows (deed_of act) s (reply_of answer)) s result state.new }
    ensures left { state.new.left ≤ state.old.left }
{
    match answer {
        Answer::Done => connected(alloc, state),
        _ => {
            skip_next(state);
            Err(cannot_connect(alloc, act))
        }
    }
}

/// The words of a host and of a port, where there are these two words and no other.
fn two_words<A: Allocator + Copy>(alloc: A, args: &[Value<A>]) -> Result<(&[u8], &[u8]), Raise<A>>
    ensures { Answers (λ words. (words.0.now, words.1.now)) (definition.two_words args.now) result }
{
    match args {
        [host, word] => Ok((host.as_slice(), word.as_slice())),
        _ => Err(wrong_args(alloc, b"socket")),
    }
}

/// The port that a word says, from 1 to 65,535.
fn port_said<A: Allocator + Copy>(alloc: A, word: &[u8]) -> Result<u16, Raise<A>>
    ensures { Answers (λ port. port) (definition.port_said word.now) result }
{
    let number = number_of(alloc, word)?;
    match u16::try_from(number) {
        Ok(port) if 1 <= port => Ok(port),
        _ => Err(bad_argument(alloc, word, b"socket")),
    }
}

/// Opens the id of a connection, and gives its channel.
fn connected<A: Allocator + Copy>(
    alloc: A,
    state: &mut State<A>,
) -> Result<Leaf<A, Waits>, Raise<A>>
    ensures shows { (s : Status) → FitsState state.old s →
        GoesOn definition.next_of (definition.reached s) s result state.new }
    ensures left { state.new.left ≡ state.old.left }
{
    let id = open_next(alloc, state, Kind::Socket)?;
    let mut text = Vec::from_slice(alloc, b"sock")?;
    push_decimal(&mut text, id.0)?;
    Ok(gives(Value::new(alloc, text)?))
}

/// The error of a server that could not be reached.
fn cannot_connect<A: Allocator + Copy>(alloc: A, act: Act<A>) -> Raise<A>
    ensures { Raises (definition.refusal_of (deed_of act)) result }
{
    match act {
        Act::Connect(_, host, port) => Raise::Fault(Fault::CannotConnect { host, port }),
        _ => Raise::Fault(Fault::CannotConnect {
            host: Vec::new(alloc),
            port: 0,
        }),
    }
}

//! `puts ?-nonewline? ?stdout|stderr? t` (puts(n)).

ghost use Rattle.std.specs.Prelude.{◌≡◌, IfOk};
ghost use Rattle.state.specs.Prelude.{Answers, Status, FitsState};
ghost use Rattle.kinds.specs.Answers.{Talks};
ghost use Rattle.state.specs.declared.state.State.{State as Kept};
ghost use Rattle.output.specs.Channel.{next_of};
ghost use Rattle.output.specs.Puts as definition;

use crate::channel::{Channel, Waits, write};
use acts::raise::{bad_argument, wrong_args};
use acts::{NoMemory, Raise};
use state::Leaf;
use std::alloc::Allocator;
use tcltext::Value;

/// Begins to write a text: to standard output or where the channel says, and with a newline unless
/// `-nonewline` stands before it.
///
/// # Errors
/// The words are too few or too many, or one of them names no channel; or memory is refused.
pub fn begin<A: Allocator + Copy>(alloc: A, args: &[Value<A>]) -> Result<Leaf<A, Waits>, Raise<A>>
    ensures { (s : Status) (state : Kept A) → FitsState state s →
        Talks next_of (definition.puts args.now) s result state }
{
    let (channel, bytes) = read_words(alloc, args)?;
    Ok(write(channel, bytes))
}

/// The channel that the words name, and the bytes to write to it.
fn read_words<A: Allocator + Copy>(
    alloc: A,
    args: &[Value<A>],
) -> Result<(Channel, Vec<u8, A>), Raise<A>>
    ensures { Answers (λ r. (r.0, r.1.items)) (definition.request args.now) result }
{
    match args {
        [text] => Ok((Channel::Output, line_of(alloc, text.as_slice())?)),
        [flag, text] if is_nonewline(flag.as_slice()) => {
            Ok((Channel::Output, Vec::from_slice(alloc, text.as_slice())?))
        }
        [word, text] => {
            let channel = channel_of(alloc, word.as_slice())?;
            Ok((channel, line_of(alloc, text.as_slice())?))
        }
        [flag, word, text] if is_nonewline(flag.as_slice()) => {
            let channel = channel_of(alloc, word.as_slice())?;
            Ok((channel, Vec::from_slice(alloc, text.as_slice())?))
        }
        [flag, _, _] => Err(bad_argument(alloc, flag.as_slice(), b"puts")),
        _ => Err(wrong_args(alloc, b"puts")),
    }
}

/// Whether a word is the flag that omits the newline.
fn is_nonewline(word: &[u8]) -> bool
    ensures { result ≡ definition.is_nonewline word.now }
{
    word == b"-nonewline".as_slice()
}

/// The channel of a name.
fn channel_of<A: Allocator + Copy>(alloc: A, word: &[u8]) -> Result<Channel, Raise<A>>
    ensures { Answers (λ channel. channel) (definition.channel_of word.now) result }
{
    if word == b"stdout".as_slice() {
        Ok(Channel::Output)
    } else if word == b"stderr".as_slice() {
        Ok(Channel::Errors)
    } else {
        Err(bad_argument(alloc, word, b"puts"))
    }
}

/// The bytes of a text and its newline.
fn line_of<A: Allocator>(alloc: A, text: &[u8]) -> Result<Vec<u8, A>, NoMemory>
    ensures { IfOk result (λ bytes. bytes.items ≡ definition.line_of text.now) }
{
    let mut bytes = Vec::from_slice(alloc, text)?;
    bytes.push(b'\n')?;
    Ok(bytes)
}

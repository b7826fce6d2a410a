//! The words of a command that reads a setting of ids, or sets it.

ghost use Rattle.std.specs.Prelude.{◌≡◌, option_copied};
ghost use Rattle.state.specs.Prelude.{Answers};
ghost use Rattle.processes.specs.Requests as definition;
ghost use Rattle.processes.specs.RequestsView.{request_of, whose_of};

use acts::Raise;
use kinds::usage::{Usage, after_flag, after_pair};
use std::alloc::Allocator;
use tcltext::Value;

/// Whose setting it is.
#[derive(Clone, Copy, Debug, PartialEq, Eq)]
pub enum Whose<'a> {
    /// That of later ids.
    Later,
    /// That of the id of this name, or else of the id in force.
    Of(Option<&'a [u8]>),
}

/// A setting that is read, or set to what a word says.
#[derive(Clone, Copy, Debug, PartialEq, Eq)]
pub struct Request<'a> {
    pub whose: Whose<'a>,
    pub value: Option<&'a [u8]>,
}

/// Reads the words of a command as a request.
///
/// # Errors
/// The words are not those that the command takes; or memory is refused for the error.
pub(crate) fn read_request<'a, A: Allocator + Copy>(
    alloc: A,
    args: &'a [Value<A>],
    command: &[u8],
) -> Result<Request<'a>, Raise<A>>
    ensures { Answers request_of (definition.request command.now args.now) result }
{
    let usage = Usage {
        command,
        flags: &[b"-d", b"-i"],
    };
    let (later, words) = after_flag(args, b"-d");
    let (name, words) = after_pair(words, b"-i");
    let value = usage.at_most_one(alloc, words)?;
    let whose = whose_name(later, name);
    Ok(Request { whose, value })
}

/// Whose setting it is: that of later ids, or that of the id of a name.
fn whose_name(later: bool, name: Option<&[u8]>) -> Whose<'_>
    ensures { whose_of result ≡ definition.whose_name later (option_copied name.entry) }
{
    if later { Whose::Later } else { Whose::Of(name) }
}

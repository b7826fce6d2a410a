//! The answers that the system's errors are to a run, names as the system takes them, and how often
//! its calls are tried.

ghost use Rattle.std.specs.Prelude.{◌≡◌, ◌≢◌, Some, IfErr, IfOk};
ghost use Rattle.std.specs.IoError.{error_kind};
ghost use Rattle.std.specs.Str.{IsUtf8};
ghost use Rattle.std.specs.declared.io.ErrorKind.TheVariants.{OutOfMemory};
ghost use Rattle.live.specs.Refusing.{IsRefusal};
ghost use Rattle.acts.specs.Deed.{reply_of};

use acts::Answer;
use std::alloc::Global;
use std::io::{self, ErrorKind};
use std::str;

/// How often a loop tries its calls at most, so that it is proved to end. No run comes near it.
pub const MOST_TRIES: u64 = u64::MAX;

/// The answer to an act that the system refused by this error, which is kept: that there are no
/// more answers where memory was refused, and else that the act is refused.
pub fn refused(why: &mut Option<io::Error>, error: io::Error) -> Answer<Global>
    ensures refusal { IsRefusal error (reply_of result) }
    ensures why { why.new ≡ Some error }
{
    *why = Some(error);
    if error.kind() == ErrorKind::OutOfMemory {
        Answer::NoMore
    } else {
        Answer::Refused
    }
}

/// The text of a name. The system takes only names that are UTF-8; any other is an `Err`.
pub fn text_of(bytes: &[u8]) -> io::Result<&str>
    ensures text { IfOk result (λ text. text.now ≡ bytes.now) }
    ensures refused { IfErr result (λ error. ¬ (IsUtf8 bytes.now)) }
{
    str::from_utf8(bytes).map_err(|_| io::Error::from(ErrorKind::InvalidInput))
}

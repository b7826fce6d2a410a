//! `catch s ?n?` (catch(n)).

ghost use Rattle.acts.specs.Raise.{Answers};
ghost use Rattle.code.specs.Doing.{doing_of};
ghost use Rattle.nesting.specs.Doing.{catch_words, taker_of};

use acts::raise::wrong_args;
use acts::{Fault, Raise};
use code::Doing;
use std::alloc::Allocator;
use tclparse::variable_name;
use tcltext::Value;

/// Reads the words after the name; a word that names no variable is refused before the script
/// runs.
pub(crate) fn read<A: Allocator + Copy>(alloc: A, args: &[Value<A>]) -> Result<Doing<A>, Raise<A>>
    ensures { Answers doing_of (catch_words args.now) result }
{
    match args {
        [body] => {
            let body = body.share()?;
            let variable = None;
            Ok(Doing::Catch { body, variable })
        }
        [body, name] => {
            let variable = Some(taker(name)?);
            let body = body.share()?;
            Ok(Doing::Catch { body, variable })
        }
        _ => Err(wrong_args(alloc, b"catch")),
    }
}

/// The word, where it names a variable.
fn taker<A: Allocator>(word: &Value<A>) -> Result<Value<A>, Raise<A>>
    ensures { Answers (λ it. it) (taker_of word.now) result }
{
    match variable_name(word.as_slice()) {
        Ok(_) => Ok(word.share()?),
        Err(_) => Err(Raise::Fault(Fault::BadVariable)),
    }
}

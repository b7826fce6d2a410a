//! `for start test step body` (for(n)).

ghost use Rattle.acts.specs.Raise.{Answers};
ghost use Rattle.code.specs.Doing.{doing_of};
ghost use Rattle.nesting.specs.Doing.{for_words};

use acts::Raise;
use acts::raise::wrong_args;
use code::Doing;
use std::alloc::Allocator;
use tcltext::Value;

/// Reads the words after the name.
pub(crate) fn read<A: Allocator + Copy>(alloc: A, args: &[Value<A>]) -> Result<Doing<A>, Raise<A>>
    ensures { Answers doing_of (for_words args.now) result }
{
    let [start, test, step, body] = args else {
        return Err(wrong_args(alloc, b"for"));
    };
    let start = start.share()?;
    let test = test.share()?;
    let step = step.share()?;
    let body = body.share()?;
    Ok(Doing::For {
        start,
        test,
        step,
        body,
    })
}

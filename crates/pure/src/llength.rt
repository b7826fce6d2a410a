//! `llength l` (llength(n)).

ghost use Rattle.std.specs.Prelude.{[], ◌∷◌};
ghost use Rattle.pure.specs.Llength as meant;
ghost use Rattle.meanings.specs.View.{Answers};

use crate::words::{number, wrong_args};
use acts::Raise;
use meanings::list_len;
use std::alloc::Allocator;
use tcltext::Value;

/// The number of the elements of a list.
pub fn llength<A: Allocator + Copy>(alloc: A, words: &[Value<A>]) -> Result<Value<A>, Raise<A>>
    ensures { Answers (meant.llength words.now) result }
{
    match words {
        [list] => count(alloc, list),
        _ => wrong_args(alloc, b"llength"),
    }
}

/// The number of the elements of the list that a word spells.
fn count<A: Allocator + Copy>(alloc: A, list: &Value<A>) -> Result<Value<A>, Raise<A>>
    ensures { Answers (meant.llength (list.now ∷ [])) result }
{
    let len = list_len(alloc, list)?;
    Ok(number(alloc, len)?)
}

//! `log_user 0|1` (expect(1), log_user).

ghost use Rattle.std.specs.Prelude.{◌≤◌};
ghost use Rattle.state.specs.Prelude.{Answers, Status, FitsState};
ghost use Rattle.kinds.specs.Answers.{Sets};
ghost use Rattle.output.specs.LogUser as definition;

use crate::settings::show_arrivals;
use acts::Raise;
use acts::raise::{bad_argument, wrong_args};
use state::State;
use std::alloc::Allocator;
use tcltext::Value;

/// Sets whether what arrives is written to standard output.
///
/// # Errors
/// The words are too few or too many, or the word is neither `0` nor `1`; or memory is refused for
/// the error.
pub fn begin<A: Allocator + Copy>(
    alloc: A,
    state: &mut State<A>,
    args: &[Value<A>],
) -> Result<Value<A>, Raise<A>>
    ensures shows { (s : Status) → FitsState state.old s →
        Sets (definition.log_user args.now) s result state.new }
    ensures left { state.new.left ≤ state.old.left }
{
    let [word] = args else {
        return Err(wrong_args(alloc, b"log_user"));
    };
    let shows = setting_of(alloc, word.as_slice())?;
    show_arrivals(state, shows);
    Ok(Value::empty())
}

/// The setting that a word spells.
fn setting_of<A: Allocator + Copy>(alloc: A, word: &[u8]) -> Result<bool, Raise<A>>
    ensures { Answers (λ shows. shows) (definition.setting_of word.now) result }
{
    if word == b"0".as_slice() {
        Ok(false)
    } else if word == b"1".as_slice() {
        Ok(true)
    } else {
        Err(bad_argument(alloc, word, b"log_user"))
    }
}

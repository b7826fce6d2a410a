//! `remove_nulls ?-d? ?-i id? ?0|1?` (expect(1), remove_nulls).

ghost use Rattle.std.specs.Prelude.{◌≡◌, ◌≤◌, None, Some, IfOk};
ghost use Rattle.state.specs.Prelude.{Answers, Status, FitsState};
ghost use Rattle.kinds.specs.Answers.{Sets};
ghost use Rattle.processes.specs.RemoveNulls as definition;
ghost use Rattle.processes.specs.RequestsView.{whose_of};

use crate::ids::{reset, reset_later};
use crate::requests::{Request, Whose, read_request};
use acts::raise::bad_argument;
use acts::{NoMemory, Raise};
use kinds::ids::{chosen_id, current_id, named_id};
use state::State;
use std::alloc::Allocator;
use tcltext::Value;

/// Gives whether nulls are removed from what arrives at an id, or at later ones, or sets whether
/// they are.
///
/// # Errors
/// The words are not those that `remove_nulls` takes, the id is not open, or the word is neither
/// `0` nor `1`; or memory is refused.
pub fn begin<A: Allocator + Copy>(
    alloc: A,
    state: &mut State<A>,
    args: &[Value<A>],
) -> Result<Value<A>, Raise<A>>
    ensures shows { (s : Status) → FitsState state.old s →
        Sets (definition.remove_nulls args.now s) s result state.new }
    ensures left { state.new.left ≤ state.old.left }
{
    let Request { whose, value } = read_request(alloc, args, b"remove_nulls")?;
    match value {
        None => Ok(show(alloc, state, whose)?),
        Some(word) => Ok(set(alloc, state, whose, word)?),
    }
}

/// Whether nulls are removed from what arrives at an id, or at later ones.
fn show<A: Allocator + Copy>(
    alloc: A,
    state: &State<A>,
    whose: Whose<'_>,
) -> Result<Value<A>, Raise<A>>
    ensures { (s : Status) → FitsState state.now s →
        Sets (definition.asked (whose_of whose.entry) None s) s result state.now }
{
    let Whose::Of(name) = whose else {
        return Ok(drops_text(alloc, state.ids.drops_nulls)?);
    };
    let id = chosen_id(alloc, state, name)?;
    match state.ids.table.drops_nulls(id) {
        Some(drops) => Ok(drops_text(alloc, drops)?),
        None => Ok(Value::empty()),
    }
}

/// Sets whether nulls are removed, as a word says.
fn set<A: Allocator + Copy>(
    alloc: A,
    state: &mut State<A>,
    whose: Whose<'_>,
    word: &[u8],
) -> Result<Value<A>, Raise<A>>
    ensures shows { (s : Status) → FitsState state.old s →
        Sets (definition.asked (whose_of whose.entry) (Some word.now) s) s result state.new }
    ensures left { state.new.left ≤ state.old.left }
{
    match whose {
        Whose::Later => {
            let drops = drops_said(alloc, word)?;
            reset_later(state, drops);
            Ok(Value::empty())
        }
        Whose::Of(Some(name)) => {
            let id = named_id(alloc, state, name)?;
            let drops = drops_said(alloc, word)?;
            reset(state, id, drops);
            Ok(Value::empty())
        }
        Whose::Of(None) => {
            let drops = drops_said(alloc, word)?;
            let id = current_id(alloc, state)?;
            reset(state, id, drops);
            Ok(Value::empty())
        }
    }
}

/// 1 where nulls are removed, and else 0.
fn drops_text<A: Allocator + Copy>(alloc: A, drops: bool) -> Result<Value<A>, NoMemory>
    ensures { IfOk result (λ value. value ≡ definition.told drops) }
{
    let text = if drops { b"1" } else { b"0" };
    Value::from_slice(alloc, text)
}

/// Whether nulls are removed, as a word says.
fn drops_said<A: Allocator + Copy>(alloc: A, word: &[u8]) -> Result<bool, Raise<A>>
    ensures { Answers (λ drops. drops) (definition.drops_said word.now) result }
{
    if word == b"0".as_slice() {
        Ok(false)
    } else if word == b"1".as_slice() {
        Ok(true)
    } else {
        Err(bad_argument(alloc, word, b"remove_nulls"))
    }
}

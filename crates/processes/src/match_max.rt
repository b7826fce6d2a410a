//! `match_max ?-d? ?-i id? ?size?` (expect(1), match_max).

ghost use Rattle.std.specs.Prelude.{◌≡◌, ◌≤◌, None, Some, IfOk, decimal, option_map};
ghost use Rattle.state.specs.Prelude.{Answers, Status, FitsState};
ghost use Rattle.kinds.specs.Answers.{Sets};
ghost use Rattle.processes.specs.MatchMax as definition;
ghost use Rattle.processes.specs.RequestsView.{whose_of};

use crate::ids::{resize, resize_later};
use crate::requests::{Request, Whose, read_request};
use acts::decimal::push_decimal;
use acts::{Fault, NoMemory, Raise};
use kinds::ids::{chosen_id, current_id, named_id};
use kinds::words::number_of;
use state::{Size, State};
use std::alloc::Allocator;
use tcltext::Value;

/// Gives the size of a match buffer, or that of later ones, or sets it.
///
/// # Errors
/// The words are not those that `match_max` takes, the id is not open, or the word says no size; or
/// memory is refused.
pub fn begin<A: Allocator + Copy>(
    alloc: A,
    state: &mut State<A>,
    args: &[Value<A>],
) -> Result<Value<A>, Raise<A>>
    ensures shows { (s : Status) → FitsState state.old s →
        Sets (definition.match_max args.now s) s result state.new }
    ensures left { state.new.left ≤ state.old.left }
{
    let Request { whose, value } = read_request(alloc, args, b"match_max")?;
    match value {
        None => Ok(show(alloc, state, whose)?),
        Some(word) => Ok(set(alloc, state, whose, word)?),
    }
}

/// The size of a match buffer, or that of later ones.
fn show<A: Allocator + Copy>(
    alloc: A,
    state: &State<A>,
    whose: Whose<'_>,
) -> Result<Value<A>, Raise<A>>
    ensures { (s : Status) → FitsState state.now s →
        Sets (definition.asked (whose_of whose.entry) None s) s result state.now }
{
    let Whose::Of(name) = whose else {
        return Ok(size_text(alloc, state.ids.size.bytes)?);
    };
    let id = chosen_id(alloc, state, name)?;
    match state.ids.table.max(id) {
        Some(bytes) => Ok(size_text(alloc, bytes)?),
        None => Ok(Value::empty()),
    }
}

/// Sets the size of a match buffer, or that of later ones, to what a word says.
fn set<A: Allocator + Copy>(
    alloc: A,
    state: &mut State<A>,
    whose: Whose<'_>,
    word: &[u8],
) -> Result<Value<A>, Raise<A>>
    ensures shows { (s : Status) → FitsState state.old s →
        Sets (definition.asked (whose_of whose.entry) (Some word.now) s) s result state.new }
    ensures left { state.new.left ≤ state.old.left }
{
    match whose {
        Whose::Later => {
            let size = size_said(alloc, word)?;
            resize_later(state, size);
            Ok(Value::empty())
        }
        Whose::Of(Some(name)) => {
            let id = named_id(alloc, state, name)?;
            let size = size_said(alloc, word)?;
            resize(state, id, size)?;
            Ok(Value::empty())
        }
        Whose::Of(None) => {
            let size = size_said(alloc, word)?;
            let id = current_id(alloc, state)?;
            resize(state, id, size)?;
            Ok(Value::empty())
        }
    }
}

/// A size in decimal.
fn size_text<A: Allocator + Copy>(alloc: A, bytes: u32) -> Result<Value<A>, NoMemory>
    ensures { IfOk result (λ value. value ≡ decimal bytes) }
{
    let mut digits = Vec::new(alloc);
    push_decimal(&mut digits, u64::from(bytes))?;
    Value::new(alloc, digits)
}

/// The size that a word says.
fn size_said<A: Allocator + Copy>(alloc: A, word: &[u8]) -> Result<Size, Raise<A>>
    ensures { Answers (λ size. size.bytes) (definition.size_said word.now) result }
{
    let number = number_of(alloc, word)?;
    match size_of(number) {
        Some(size) => Ok(size),
        None => Err(Raise::Fault(Fault::BadSize)),
    }
}

/// The size that a whole number is, if it is one.
fn size_of(number: i64) -> Option<Size>
    ensures { option_map (λ size. size.bytes) result ≡ definition.size_of number }
{
    match u32::try_from(number) {
        Ok(bytes) => Size::new(bytes),
        Err(_) => None,
    }
}

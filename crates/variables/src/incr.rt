//! `incr n ?k?` (incr(n)).

ghost use Rattle.std.specs.Prelude.{◌≡◌, ◌+ℤ◌, Ok, IfSome, IfNone, option_copied};
ghost use Rattle.acts.specs.Raise.{Answers};
ghost use Rattle.kinds.specs.Answers.{Stores};
ghost use Rattle.variables.specs.Incr as definition;

use crate::values::{self, held};
use acts::raise::wrong_args;
use acts::{Fault, Raise};
use kinds::words;
use state::arguments::whole_number_in;
use std::alloc::Allocator;
use tclparse::{Name, variable_name};
use tclstate::Scopes;
use tcltext::Value;

/// Adds one, or the number that is given, to that of a variable, and gives the sum.
///
/// # Errors
/// The wrong number of words; a word that is no variable name; no number, in a word or in the
/// variable; a variable that can't be read; a sum beyond 64 bits; or memory is refused. Nothing
/// changes.
#[inline(always)]
pub fn begin<A: Allocator + Copy>(
    alloc: A,
    scopes: &mut Scopes<A>,
    args: &[Value<A>],
) -> Result<Value<A>, Raise<A>>
    ensures { Stores (definition.incr args.now scopes.old) scopes.old result scopes.new }
{
    match args {
        [word] => add(alloc, scopes, word.as_slice(), None),
        [word, by] => add(alloc, scopes, word.as_slice(), Some(by)),
        _ => Err(wrong_args(alloc, b"incr")),
    }
}

/// Adds a number to that of the variable or the element that a word names. All but a sum that is
/// written where the variable stands is apart, since it may answer an error, which is wide.
#[inline(always)]
fn add<'a, A: Allocator + Copy>(
    alloc: A,
    scopes: &mut Scopes<A>,
    word: &'a [u8],
    by: Option<&'a Value<A>>,
) -> Result<Value<A>, Raise<A>>
    ensures { Stores (definition.adds word.now (option_copied by.entry) scopes.old)
        scopes.old result scopes.new }
{
    match add_in_place(scopes, word, by) {
        Some(sum) => Ok(sum),
        None => add_elsewhere(alloc, scopes, word, by),
    }
}

/// Adds a number to that of the variable that a word names, one where none is given, and gives the
/// sum, which stands there then (incr(n)). `None` where there is no such variable, where one of the
/// two is no number, or where the sum does not lie in place: nothing has changed then. Takes no
/// memory.
#[inline(always)]
pub fn add_in_place<'a, A: Allocator>(
    scopes: &mut Scopes<A>,
    word: &'a [u8],
    by: Option<&'a Value<A>>,
) -> Option<Value<A>>
    ensures added { IfSome result (λ sum.
        definition.adds word.now (option_copied by.entry) scopes.old ≡ Ok (scopes.new, sum)) }
    ensures unchanged { IfNone result (scopes.new ≡ scopes.old) }
{
    let Ok(Name { name, index }) = variable_name(word) else {
        return None;
    };
    added(scopes, name, index, by)
}

/// Adds a number to that of the variable or the element that a word names, by a look-up and a
/// write.
#[inline(never)]
fn add_elsewhere<'a, A: Allocator + Copy>(
    alloc: A,
    scopes: &mut Scopes<A>,
    word: &'a [u8],
    by: Option<&'a Value<A>>,
) -> Result<Value<A>, Raise<A>>
    ensures { Stores (definition.adds word.now (option_copied by.entry) scopes.old)
        scopes.old result scopes.new }
{
    let Ok(Name { name, index }) = variable_name(word) else {
        return Err(Raise::Fault(Fault::BadVariable));
    };
    add_to(alloc, scopes, name, index, by)
}

/// The number that a word says, one where there is none; `None` where the word is no number.
fn step_in<A: Allocator>(by: Option<&Value<A>>) -> Option<i64>
    ensures { IfSome result (λ k. definition.step_of (option_copied by.entry) ≡ Ok k) }
{
    match by {
        Some(by) => whole_number_in(by),
        None => Some(1),
    }
}

/// Adds the number that a word says to that of a variable where it stands, and gives the sum.
/// `None` where there are no such numbers, or where the sum does not lie in place: nothing has
/// changed then.
fn added<A: Allocator>(
    scopes: &mut Scopes<A>,
    name: &[u8],
    index: Option<&[u8]>,
    by: Option<&Value<A>>,
) -> Option<Value<A>>
    ensures added { IfSome result (λ sum.
        definition.adds_to name.now (option_copied index.entry) (option_copied by.entry)
        scopes.old ≡ Ok (scopes.new, sum)) }
    ensures unchanged { IfNone result (scopes.new ≡ scopes.old) }
{
    let by = step_in(by)?;
    match index {
        Some(_) => None,
        None => scopes.add(name, by),
    }
}

/// Adds a number to that of a variable or an element.
fn add_to<'a, A: Allocator + Copy>(
    alloc: A,
    scopes: &mut Scopes<A>,
    name: &[u8],
    index: Option<&[u8]>,
    by: Option<&'a Value<A>>,
) -> Result<Value<A>, Raise<A>>
    ensures { Stores (definition.adds_to name.now (option_copied index.entry)
        (option_copied by.entry) scopes.old) scopes.old result scopes.new }
{
    let by = step_of(alloc, by)?;
    let number = number_in(alloc, scopes, name, index)?;
    Ok(put_sum(alloc, scopes, name, index, number, by)?)
}

/// The number to add: one, where no word says it.
fn step_of<A: Allocator + Copy>(alloc: A, by: Option<&Value<A>>) -> Result<i64, Raise<A>>
    ensures { Answers (λ n. n) (definition.step_of (option_copied by.entry)) result }
{
    match by {
        Some(by) => words::number_in(alloc, by),
        None => Ok(1),
    }
}

/// The number of a variable or an element, 0 where it is missing.
fn number_in<A: Allocator + Copy>(
    alloc: A,
    scopes: &Scopes<A>,
    name: &[u8],
    index: Option<&[u8]>,
) -> Result<i64, Raise<A>>
    ensures { Answers (λ n. n)
        (definition.number_in name.now (option_copied index.entry) scopes.now) result }
{
    match held(alloc, scopes, name, index)? {
        Some(text) => Ok(words::number_in(alloc, text)?),
        None => Ok(0),
    }
}

/// Writes a sum, where 64 bits hold it, and gives it.
fn put_sum<A: Allocator + Copy>(
    alloc: A,
    scopes: &mut Scopes<A>,
    name: &[u8],
    index: Option<&[u8]>,
    number: i64,
    by: i64,
) -> Result<Value<A>, Raise<A>>
    ensures { Stores (definition.put_in_range name.now (option_copied index.entry)
        (number +ℤ by) scopes.old) scopes.old result scopes.new }
{
    match number.checked_add(by) {
        Some(sum) => put(alloc, scopes, name, index, sum),
        None => Err(Raise::Fault(Fault::OutOfRange)),
    }
}

/// Writes a number in decimal, and gives it.
fn put<A: Allocator + Copy>(
    alloc: A,
    scopes: &mut Scopes<A>,
    name: &[u8],
    index: Option<&[u8]>,
    number: i64,
) -> Result<Value<A>, Raise<A>>
    ensures { Stores (definition.put name.now (option_copied index.entry) number scopes.old)
        scopes.old result scopes.new }
{
    let text = Value::int(alloc, number)?;
    Ok(values::put(alloc, scopes, name, index, text)?)
}

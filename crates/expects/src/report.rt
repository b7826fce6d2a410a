//! The variables that a choice sets (expect(1), expect_out).

ghost use Rattle.std.specs.Prelude.{◌≡◌, ◌-ℤ◌, decimal, drop, pos, IfOk};
ghost use Rattle.std.specs.Fmt.{signed_decimal};
ghost use Rattle.choices.specs.Selects.{taken_by};
ghost use Rattle.expects.specs.Parts.{Writes, taken_of};
ghost use Rattle.expects.specs.Report as definition;
ghost use Rattle.expects.specs.Told.{sets_all, buffer_told, match_told, places_told};
ghost use Rattle.tclstate.specs.InTurn.{elements_in};

use acts::{NoMemory, Raise};
use dialog::Taken;
use kinds::ids::name_of;
use kinds::variables::put_all;
use patterns::Found;
use std::alloc::Allocator;
use tclstate::Scopes;
use tcltext::{Value, print_int, print_nat};

/// The array whose elements a choice sets (expect(1), expect).
const EXPECT_OUT: &[u8] = b"expect_out";

/// The indexes of its elements.
const START: &[u8] = b"0,start";

const END: &[u8] = b"0,end";

const STRING: &[u8] = b"0,string";

const SPAWN_ID: &[u8] = b"spawn_id";

const BUFFER: &[u8] = b"buffer";

/// Sets what a choice has for `expect_out`, if it has something.
///
/// # Errors
/// An element can't be set; those before it are set. Or memory is refused.
pub(crate) fn report<A: Allocator + Copy>(
    alloc: A,
    scopes: &mut Scopes<A>,
    taken: Option<Taken<A>>,
) -> Result<(), Raise<A>>
    ensures { Writes (definition.reported (taken_by taken) scopes.old) result scopes.new }
{
    match taken {
        Some(taken) => tell(alloc, scopes, taken),
        None => Ok(()),
    }
}

/// Sets all elements: the match, the id, the buffer, in this order.
#[tactic(auto, using(crate::proofs::Telling::buffer_written))]
fn tell<A: Allocator + Copy>(
    alloc: A,
    scopes: &mut Scopes<A>,
    taken: Taken<A>,
) -> Result<(), Raise<A>>
    ensures { Writes (definition.tells (taken_of taken) scopes.old) result scopes.new }
{
    let id = name_of(alloc, taken.id)?;
    let Some(found) = taken.found else {
        return tell_buffer(alloc, scopes, id, taken.buffer);
    };
    if taken.tells_places {
        tell_places(alloc, scopes, found, id, taken.buffer)
    } else {
        tell_match(alloc, scopes, found, id, taken.buffer)
    }
}

/// Sets the id and the buffer.
fn tell_buffer<A: Allocator + Copy>(
    alloc: A,
    scopes: &mut Scopes<A>,
    id: Value<A>,
    buffer: Vec<u8, A>,
) -> Result<(), Raise<A>>
    ensures { Writes (sets_all (buffer_told id buffer.items) scopes.old) result scopes.new }
{
    let buffer = Value::new(alloc, buffer)?;
    set_all(alloc, scopes, &mut [(SPAWN_ID, id), (BUFFER, buffer)])
}

/// Sets the bytes of a match, the id and the buffer.
fn tell_match<A: Allocator + Copy>(
    alloc: A,
    scopes: &mut Scopes<A>,
    found: Found,
    id: Value<A>,
    buffer: Vec<u8, A>,
) -> Result<(), Raise<A>>
    ensures { Writes (sets_all (match_told found id buffer.items) scopes.old) result scopes.new }
{
    let matched = matched(alloc, &buffer, found)?;
    let buffer = Value::new(alloc, buffer)?;
    let mut elements = [(STRING, matched), (SPAWN_ID, id), (BUFFER, buffer)];
    set_all(alloc, scopes, &mut elements)
}

/// Sets the places of the first byte of a match and of its last one, its bytes, the id and the
/// buffer.
fn tell_places<A: Allocator + Copy>(
    alloc: A,
    scopes: &mut Scopes<A>,
    found: Found,
    id: Value<A>,
    buffer: Vec<u8, A>,
) -> Result<(), Raise<A>>
    ensures { Writes (sets_all (places_told found id buffer.items) scopes.old) result scopes.new }
{
    let start = start(alloc, found)?;
    let end = end(alloc, found)?;
    let matched = matched(alloc, &buffer, found)?;
    let buffer = Value::new(alloc, buffer)?;
    let mut elements = [
        (START, start),
        (END, end),
        (STRING, matched),
        (SPAWN_ID, id),
        (BUFFER, buffer),
    ];
    set_all(alloc, scopes, &mut elements)
}

/// Sets elements of `expect_out`, which is looked up once for all of them.
#[tactic(auto, using(crate::proofs::Telling::writes_all))]
fn set_all<A: Allocator + Copy>(
    alloc: A,
    scopes: &mut Scopes<A>,
    elements: &mut [(&[u8], Value<A>)],
) -> Result<(), Raise<A>>
    ensures { Writes (sets_all (elements_in elements.old) scopes.old) result scopes.new }
{
    put_all(alloc, scopes, EXPECT_OUT, elements)
}

/// The place of the first byte of a match.
fn start<A: Allocator + Copy>(alloc: A, found: Found) -> Result<Value<A>, NoMemory>
    ensures { IfOk result (λ text. text ≡ decimal found.start) }
{
    Ok(Value::new(alloc, print_nat(alloc, found.start as u64)?)?)
}

/// The place of the last byte of a match.
fn end<A: Allocator + Copy>(alloc: A, found: Found) -> Result<Value<A>, NoMemory>
    ensures { IfOk result (λ text. text ≡ signed_decimal (pos found.end -ℤ pos 1)) }
{
    Ok(Value::new(alloc, last_place(alloc, found.end)?)?)
}

/// The bytes of a match, which end the buffer.
fn matched<A: Allocator + Copy>(alloc: A, buffer: &[u8], found: Found) -> Result<Value<A>, NoMemory>
    ensures { IfOk result (λ text. text ≡ drop found.start buffer.now) }
{
    Ok(Value::from_slice(alloc, behind(buffer, found.start))?)
}

/// The place of the last byte before an end, in digits; -1 for an empty match at the beginning.
fn last_place<A: Allocator>(alloc: A, end: usize) -> Result<Vec<u8, A>, NoMemory>
    ensures { IfOk result (λ text. text.items ≡ signed_decimal (pos end -ℤ pos 1)) }
{
    match end.checked_sub(1) {
        Some(last) => print_nat(alloc, last as u64),
        None => print_int(alloc, -1),
    }
}

/// The bytes from a place on.
fn behind(bytes: &[u8], start: usize) -> &[u8]
    ensures { result.now ≡ drop start bytes.now }
{
    match bytes.get(start..) {
        Some(behind) => behind,
        None => b"",
    }
}

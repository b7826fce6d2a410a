//! What the answer to an act of `expect` leads to (expect(1), expect).

ghost use Rattle.std.specs.Prelude.{◌≡◌, ◌≤◌, IfOk, IsOk};
ghost use Rattle.state.specs.Prelude.{deed_of, reply_of, Status, shut, FitsState};
ghost use Rattle.expects.specs.Turn as definition;
ghost use Rattle.expects.specs.View.{Brings, Comes, IsOnTheWay, bytes_of, course_of_talk, has_failed, next_of, notes, rows_waited, settles, turn_of};
ghost use Rattle.state.specs.Dialogue.{written};

use crate::turn::{Ended, Talk, Turn, Turned, Waits};
use crate::turning::{select, settle};
use acts::{Act, Answer, Id, NoMemory, Row};
use dialog::Trigger;
use kept::Kept;
use state::{Leave, State, Stop};
use std::alloc::Allocator;

/// Continues a turn with the answer to an act: to a wait, to a write of what came, or to a close.
///
/// # Errors
/// `NoMemory`, but never while bytes that came are on their way into their buffer.
pub fn answered<A: Allocator + Copy>(
    alloc: A,
    kept: &mut Kept<A>,
    state: &mut State<A>,
    act: Act<A>,
    waits: Waits<A>,
    answer: Answer<A>,
) -> Result<Talk<A>, NoMemory>
    ensures comes { (s : Status) → FitsState state.old s → IfOk result (λ talk.
        Comes course_of_talk talk state.new
        (next_of waits (deed_of act) s (reply_of answer))) }
    ensures left { state.new.left ≤ state.old.left }
    ensures arrival { IsOnTheWay waits (reply_of answer) → IsOk result }
{
    match waits {
        Waits::Awaited(mut turn) => {
            turn.put_rows(waited_rows(alloc, act));
            awaited(alloc, kept, state, turn, answer)
        }
        Waits::Shown(id, turn) => Ok(shown(state, id, out_bytes(alloc, act), turn, &answer)),
        Waits::Noted(id, turn) => Ok(noted(state, id, out_bytes(alloc, act), turn, &answer)),
        Waits::Closed(ended) => closed(alloc, kept, state, Box::into_inner(ended)),
    }
}

/// Continues after a wait: bytes that came are written and then put into their buffer; after an end
/// or a timeout a choice is made.
fn awaited<A: Allocator + Copy>(
    alloc: A,
    kept: &mut Kept<A>,
    state: &mut State<A>,
    turn: Box<Turn<A>, A>,
    answer: Answer<A>,
) -> Result<Talk<A>, NoMemory>
    ensures comes { (s : Status) → FitsState state.old s → IfOk result (λ talk.
        Comes course_of_talk talk state.new
        (definition.waited (turn_of turn.value) turn.value.levels s (reply_of answer))) }
    ensures left { state.new.left ≤ state.old.left }
    ensures arrival { Brings (reply_of answer) → IsOk result }
{
    match answer {
        Answer::Arrive(id, bytes) => Ok(place(state, id, bytes, turn)),
        Answer::Ended(id) => ended(alloc, state, id, turn),
        _ => timed_out(alloc, kept, state, turn),
    }
}

/// Writes an arrival to standard output and to the log, as the settings say, and puts it into its
/// buffer after that.
fn place<A: Allocator>(
    state: &mut State<A>,
    id: Id,
    bytes: Vec<u8, A>,
    turn: Box<Turn<A>, A>,
) -> Talk<A>
    ensures comes { (s : Status) → FitsState state.old s → Comes course_of_talk result state.new
        (definition.comes id bytes.items (turn_of turn.value) turn.value.levels s) }
    ensures left { state.new.left ≡ state.old.left }
{
    if bytes.is_empty() {
        return arrive(state, id, &bytes, turn);
    }
    let (goes_out, _) = state.log.places();
    if goes_out {
        return Talk::Turned(Turned::Asks(Act::Out(bytes), Waits::Shown(id, turn)));
    }
    note(state, id, bytes, turn)
}

/// Continues after a write to standard output; where it failed, the run stops.
fn shown<A: Allocator>(
    state: &mut State<A>,
    id: Id,
    bytes: Vec<u8, A>,
    turn: Box<Turn<A>, A>,
    answer: &Answer<A>,
) -> Talk<A>
    ensures comes { (s : Status) → FitsState state.old s → Comes course_of_talk result state.new
        (written (notes id bytes.items (turn_of turn.value) turn.value.levels) s
        (reply_of answer.now)) }
    ensures left { state.new.left ≡ state.old.left }
{
    match answer {
        Answer::Failed(_) => write_failed(),
        _ => note(state, id, bytes, turn),
    }
}

/// Writes an arrival to the log, if the settings say so, and puts it into its buffer after that.
fn note<A: Allocator>(
    state: &mut State<A>,
    id: Id,
    bytes: Vec<u8, A>,
    turn: Box<Turn<A>, A>,
) -> Talk<A>
    ensures comes { (s : Status) → FitsState state.old s → Comes course_of_talk result state.new
        (notes id bytes.items (turn_of turn.value) turn.value.levels s) }
    ensures left { state.new.left ≡ state.old.left }
{
    let (_, is_logged) = state.log.places();
    if is_logged {
        return Talk::Turned(Turned::Asks(Act::Log(bytes), Waits::Noted(id, turn)));
    }
    arrive(state, id, &bytes, turn)
}

/// Continues after a write to the log; where it failed, the run stops.
fn noted<A: Allocator>(
    state: &mut State<A>,
    id: Id,
    bytes: Vec<u8, A>,
    turn: Box<Turn<A>, A>,
    answer: &Answer<A>,
) -> Talk<A>
    ensures comes { (s : Status) → FitsState state.old s → Comes course_of_talk result state.new
        (written (definition.arrives id bytes.items (turn_of turn.value) turn.value.levels) s
        (reply_of answer.now)) }
    ensures left { state.new.left ≡ state.old.left }
{
    match answer {
        Answer::Failed(_) => write_failed(),
        _ => arrive(state, id, &bytes, turn),
    }
}

/// A write failed, and the run stops.
fn write_failed<A: Allocator>() -> Talk<A>
    ensures { result ≡ has_failed }
{
    Talk::Turned(Turned::Has(Err(Leave::Stopped(Stop::WriterFailed))))
}

/// Puts bytes into the buffer of their id, and begins another turn.
fn arrive<A: Allocator>(
    state: &mut State<A>,
    id: Id,
    bytes: &[u8],
    mut turn: Box<Turn<A>, A>,
) -> Talk<A>
    ensures comes { (s : Status) → FitsState state.old s → Comes course_of_talk result state.new
        (definition.arrives id bytes.now (turn_of turn.value) turn.value.levels s) }
    ensures left { state.new.left ≡ state.old.left }
{
    state.ids.table.arrive(id, bytes);
    turn.look_after(Trigger::Arrival(id));
    Talk::Turns(turn)
}

/// After the end of an id: a choice is made, and the id is closed before what is chosen is done.
fn ended<A: Allocator + Copy>(
    alloc: A,
    state: &mut State<A>,
    id: Id,
    turn: Box<Turn<A>, A>,
) -> Result<Talk<A>, NoMemory>
    ensures comes { (s : Status) → FitsState state.old s → IfOk result (λ talk.
        Comes course_of_talk talk state.new
        (definition.ends id (turn_of turn.value) turn.value.levels s)) }
    ensures left { state.new.left ≡ state.old.left }
{
    let choice = select(alloc, state, &turn.effective, Trigger::End(id))?;
    let ended = Box::new(alloc, Ended { id, turn, choice })?;
    Ok(Talk::Turned(Turned::Asks(Act::Close(id), Waits::Closed(ended))))
}

/// After a timeout: a choice is made and done.
fn timed_out<A: Allocator + Copy>(
    alloc: A,
    kept: &mut Kept<A>,
    state: &mut State<A>,
    turn: Box<Turn<A>, A>,
) -> Result<Talk<A>, NoMemory>
    ensures comes { (s : Status) → FitsState state.old s → IfOk result (λ talk.
        Comes course_of_talk talk state.new
        (definition.times_out (turn_of turn.value) turn.value.levels s)) }
    ensures left { state.new.left ≤ state.old.left }
{
    let choice = select(alloc, state, &turn.effective, Trigger::TimedOut)?;
    Ok(Talk::Turned(settle(alloc, kept, state, turn, choice)?))
}

/// After a close: the id is closed, and what was chosen is done.
fn closed<A: Allocator + Copy>(
    alloc: A,
    kept: &mut Kept<A>,
    state: &mut State<A>,
    ended: Ended<A>,
) -> Result<Talk<A>, NoMemory>
    ensures comes { (s : Status) → FitsState state.old s → IfOk result (λ talk.
        Comes course_of_talk talk state.new
        (settles ended.choice (turn_of ended.turn.value) ended.turn.value.levels
        (shut ended.id s))) }
    ensures left { state.new.left ≤ state.old.left }
{
    let Ended { id, turn, choice } = ended;
    state.ids.close(id);
    Ok(Talk::Turned(settle(alloc, kept, state, turn, choice)?))
}

/// The bytes of a write to standard output or to the log.
fn out_bytes<A: Allocator>(alloc: A, act: Act<A>) -> Vec<u8, A>
    ensures { result.items ≡ bytes_of (deed_of act) }
{
    match act {
        Act::Out(bytes) | Act::Log(bytes) => bytes,
        _ => Vec::new(alloc),
    }
}

/// The vector of the rows of a wait, whose room is used again.
fn waited_rows<A: Allocator>(alloc: A, act: Act<A>) -> Vec<Row, A>
    ensures { result.items ≡ rows_waited (deed_of act) }
{
    match act {
        Act::Wait { rows, timer: _ } => rows,
        _ => Vec::new(alloc),
    }
}

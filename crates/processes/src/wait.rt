//! `wait ?-i id?` (expect(1), wait).

ghost use Rattle.std.specs.Prelude.{◌≡◌, ◌++◌, ◌≤◌, IfOk, OnOk, map, option_map};
ghost use Rattle.state.specs.Prelude.{reply_of, Answers, Status, FitsState};
ghost use Rattle.kinds.specs.Answers.{GoesOn, Talks};
ghost use Rattle.processes.specs.Wait as definition;
ghost use Rattle.state.specs.View.{unreaped_of};

use crate::ids::reap;
use acts::decimal::push_decimal;
use acts::raise::not_open;
use acts::{Act, Answer, Fault, Id, NoMemory, Raise};
use dialog::Kind;
use kinds::usage::{Usage, after_pair};
use state::leaf::gives;
use state::variables::{SPAWN_ID, consulted};
use state::{Leaf, State, Unreaped};
use std::alloc::Allocator;
use tcltext::Value;

const USAGE: Usage<'static> = Usage {
    command: b"wait",
    flags: &[b"-i"],
};

/// What waits for the answer to an act: the process of this id has ended.
#[derive(Clone, Copy, Debug, PartialEq, Eq)]
pub struct Waits {
    pub id: Id,
    /// The number of the process.
    pub pid: u64,
}

/// Begins to wait for the id in force, or the one that stands after the flag; the wait for a
/// connection is over at once.
///
/// # Errors
/// The words are not those that `wait` takes, or mean no id that is still to be waited for; or
/// memory is refused.
pub fn begin<A: Allocator + Copy>(
    alloc: A,
    state: &mut State<A>,
    args: &[Value<A>],
) -> Result<Leaf<A, Waits>, Raise<A>>
    ensures shows { (s : Status) → FitsState state.old s →
        Talks definition.next_of (definition.wait args.now s) s result state.new }
    ensures left { state.new.left ≤ state.old.left }
{
    let Unreaped { id, kind } = unreaped_said(alloc, state, args)?;
    match kind {
        Kind::Process(pid) => Ok(Leaf::Asks(Act::Reap(id), Waits { id, pid })),
        Kind::Socket => {
            let report = report(alloc, 0, id, Some(0))?;
            reap(state, id);
            Ok(gives(report))
        }
    }
}

/// Continues the command with the answer to the wait.
///
/// # Errors
/// Memory is refused.
pub fn answered<A: Allocator + Copy>(
    alloc: A,
    state: &mut State<A>,
    waits: Waits,
    answer: Answer<A>,
) -> Result<Leaf<A, Waits>, Raise<A>>
    ensures shows { (s : Status) → FitsState state.old s → GoesOn definition.next_of
        (definition.follows waits (reply_of answer)) s result state.new }
    ensures left { state.new.left ≤ state.old.left }
{
    let Waits { id, pid } = waits;
    let report = report(alloc, pid, id, status_in(&answer))?;
    reap(state, id);
    Ok(gives(report))
}

/// The status with which a process ended, or none after a signal.
fn status_in<A: Allocator>(answer: &Answer<A>) -> Option<u8>
    ensures { result ≡ definition.status_in (reply_of answer.now) }
{
    match answer {
        Answer::Exited(status) => *status,
        _ => None,
    }
}

/// The id, not yet waited for, that the words are about.
fn unreaped_said<A: Allocator + Copy>(
    alloc: A,
    state: &State<A>,
    args: &[Value<A>],
) -> Result<Unreaped, Raise<A>>
    ensures { (s : Status) → FitsState state.now s →
        Answers unreaped_of (definition.unreaped_said args.now s) result }
{
    let (name, words) = after_pair(args, b"-i");
    USAGE.no_more(alloc, words)?;
    match name {
        Some(name) => unreaped_named(alloc, state, name),
        None => unreaped_current(alloc, state),
    }
}

/// The id, not yet waited for, that the variable `spawn_id` names, where the variable is set.
fn unreaped_current<A: Allocator + Copy>(alloc: A, state: &State<A>) -> Result<Unreaped, Raise<A>>
    ensures { (s : Status) → FitsState state.now s →
        Answers unreaped_of (definition.unreaped_current s) result }
{
    match consulted(state, SPAWN_ID) {
        Some(text) => unreaped_named(alloc, state, text.as_slice()),
        None => Err(Raise::Fault(Fault::NotOpen(None))),
    }
}

/// The id, not yet waited for, that a text spells.
fn unreaped_named<A: Allocator + Copy>(
    alloc: A,
    state: &State<A>,
    text: &[u8],
) -> Result<Unreaped, Raise<A>>
    ensures { (s : Status) → FitsState state.now s →
        Answers unreaped_of (definition.unreaped_named text.now s) result }
{
    match unreaped_among(&state.ids.unreaped, text) {
        Some(unreaped) => Ok(unreaped),
        None => Err(not_open(alloc, text)),
    }
}

/// The id, not yet waited for, that a text spells, where there is one.
fn unreaped_among(unreaped: &[Unreaped], text: &[u8]) -> Option<Unreaped>
    ensures { option_map unreaped_of result
        ≡ definition.among (map unreaped_of unreaped.now) text.now }
{
    for other in unreaped {
        if other.id.is_named(b"exp", text) {
            return Some(*other);
        }
    }
    None
}

/// What the command gives for an id: the number of its process, the id, and how the process ended.
fn report<A: Allocator + Copy>(
    alloc: A,
    pid: u64,
    id: Id,
    status: Option<u8>,
) -> Result<Value<A>, NoMemory>
    ensures { IfOk result (λ value. value ≡ definition.report pid id status) }
{
    let mut text = Vec::new(alloc);
    push_decimal(&mut text, pid)?;
    text.push(b' ')?;
    text.extend_from_slice(&id.text(alloc)?)?;
    push_end(&mut text, status)?;
    Value::new(alloc, text)
}

/// Writes how a process ended: with a status, or after a signal.
fn push_end<A: Allocator>(text: &mut Vec<u8, A>, status: Option<u8>) -> Result<(), NoMemory>
    ensures { OnOk result (text.new.items ≡ text.old.items ++ definition.end_text status) }
{
    match status {
        Some(status) => {
            text.extend_from_slice(b" 0 ")?;
            push_decimal(text, u64::from(status))
        }
        None => Ok(text.extend_from_slice(b" 0 0 CHILDKILLED")?),
    }
}

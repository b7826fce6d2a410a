//! The table of the commands: how each one begins, and how it continues with an answer.
//!
//! What waits for the answer to an act is wide, and passing it from one function to the next would
//! cost a short command many more instructions. So a command that asks for no act is done apart
//! from those that do, and of these the tables of the kinds are inlined into this one, and this one
//! into its caller.
#![tactic(auto, using(state::proofs::Reaches::same_reaches))]

ghost use Rattle.std.specs.Prelude.{◌≡◌, ◌≤◌, drop, IfOk};
ghost use Rattle.state.specs.Prelude.{deed_of, reply_of, Raises, Shows, Status, FitsState};
ghost use Rattle.commands.specs.Acting as acting_definition;
ghost use Rattle.commands.specs.Began.{Begins, Comes};
ghost use Rattle.commands.specs.Commands as definition;
ghost use Rattle.commands.specs.View.{next_of};
ghost use Rattle.kinds.specs.Exchange.{talks};

use crate::acting::Acting;
use crate::builtin::Builtin;
use crate::left_out::is_left_out;
use crate::waits::Waits;
use crate::{acting, locals, settings};
use acts::{Act, Answer, Fault, NoMemory, Raise};
use kinds::{failed, settle};
use leaving::leave;
use procedures::proc;
use state::{Leaf, Outcome, State};
use std::alloc::Allocator;
use tcltext::Value;

/// How far a command has come that began.
#[derive(Drop)]
pub enum Began<A: Allocator> {
    /// It is over, with this outcome.
    Has(Outcome<A>),
    /// It is one that asks for acts, by the words after its name.
    Asks(Acting),
}

/// Begins a command, by its words: one that asks for no act ends, and one that does is told.
///
/// # Errors
/// `NoMemory` where memory is refused.
pub fn begin<A: Allocator + Copy>(
    alloc: A,
    state: &mut State<A>,
    words: &[Value<A>],
) -> Result<Began<A>, NoMemory>
    ensures begins { (s : Status) → FitsState state.old s → IfOk result (λ began.
        Begins (definition.command s words.now) began (drop 1 words.now) s state.new) }
    ensures left { state.new.left ≤ state.old.left }
{
    let [name, args @ ..] = words else {
        return Ok(Began::Has(Ok(Value::empty())));
    };
    match call_named(alloc, state, name.as_slice(), args) {
        Ok(began) => Ok(began),
        Err(why) => Ok(Began::Has(failed(alloc, why)?)),
    }
}

/// Begins the command of a name with the words after it.
#[inline(always)]
fn call_named<A: Allocator + Copy>(
    alloc: A,
    state: &mut State<A>,
    name: &[u8],
    args: &[Value<A>],
) -> Result<Began<A>, Raise<A>>
    ensures comes { (s : Status) → FitsState state.old s →
        Comes (definition.called (definition.named name.now) name.now args.now s) result args.now s
        state.new }
    ensures left { state.new.left ≤ state.old.left }
{
    match Builtin::read(name) {
        Some(builtin) => call(alloc, state, builtin, args),
        None => Err(unknown(alloc, name)),
    }
}

/// The error of a name that no command has.
fn unknown<A: Allocator + Copy>(alloc: A, name: &[u8]) -> Raise<A>
    ensures { Raises (definition.unknown name.now) result }
{
    let copy = match Vec::from_slice(alloc, name) {
        Ok(copy) => copy,
        Err(refusal) => return refusal.into(),
    };
    if is_left_out(name) {
        Raise::Fault(Fault::NotInProfile(copy))
    } else {
        Raise::Fault(Fault::InvalidCommand(copy))
    }
}

/// Begins a command with the words after its name.
#[inline(always)]
fn call<A: Allocator + Copy>(
    alloc: A,
    state: &mut State<A>,
    builtin: Builtin,
    args: &[Value<A>],
) -> Result<Began<A>, Raise<A>>
    ensures comes { (s : Status) → FitsState state.old s →
        Comes (definition.does builtin args.now s) result args.now s state.new }
    ensures left { state.new.left ≤ state.old.left }
{
    match builtin {
        Builtin::Exit(own) => Ok(Began::Has(leave(alloc, own, args)?)),
        Builtin::Local(own) => Ok(Began::Has(Ok(locals::call(
            alloc,
            &mut state.scopes,
            own,
            args,
        )?))),
        Builtin::Setting(own) => Ok(Began::Has(Ok(settings::call(alloc, state, own, args)?))),
        Builtin::Acting(own) => Ok(Began::Asks(own)),
        Builtin::Proc => Ok(Began::Has(Ok(proc::begin(alloc, &mut state.procs, args)?))),
        Builtin::Text(own) => Ok(Began::Has(Ok(own.apply(alloc, args)?))),
    }
}

/// Begins a command that asks for acts, with the words after its name, up to its first act.
///
/// # Errors
/// `NoMemory` where memory is refused.
#[inline(always)]
pub fn ask<A: Allocator + Copy>(
    alloc: A,
    state: &mut State<A>,
    acting: Acting,
    args: &[Value<A>],
) -> Result<Leaf<A, Waits<A>>, NoMemory>
    ensures shows { (s : Status) → FitsState state.old s → IfOk result (λ leaf.
        Shows next_of leaf state.new (talks (acting_definition.does acting args.now s) s)) }
    ensures left { state.new.left ≤ state.old.left }
{
    let answer = acting::call(alloc, state, acting, args);
    settle(alloc, answer)
}

/// Continues a command with the answer to its act, up to its next act.
///
/// # Errors
/// `NoMemory` where memory is refused.
#[inline(always)]
pub fn answered<A: Allocator + Copy>(
    alloc: A,
    state: &mut State<A>,
    act: Act<A>,
    waits: Waits<A>,
    answer: Answer<A>,
) -> Result<Leaf<A, Waits<A>>, NoMemory>
    ensures shows { (s : Status) → FitsState state.old s → IfOk result (λ leaf.
        Shows next_of leaf state.new (next_of waits (deed_of act) s (reply_of answer))) }
    ensures left { state.new.left ≤ state.old.left }
{
    let answer = acting::answered(alloc, state, act, waits, answer);
    settle(alloc, answer)
}

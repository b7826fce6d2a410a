//! How far a command that runs no script has come.

ghost use Rattle.std.specs.Prelude.{[], IfOk};
ghost use Rattle.state.specs.Leaf.{HasOutcome, Maps};
ghost use Rattle.state.specs.Outcome as outcome;
ghost use Rattle.state.specs.View as definition;
ghost use Rattle.state.specs.View.{stop_of};

use crate::outcome::{Leave, Outcome, Stop, raised};
use acts::{Act, Fault, NoMemory};
use std::alloc::Allocator;
use tcltext::Value;

/// How far a command that runs no script has come; `W` is what the command does with the answers to
/// its acts.
#[derive(Drop)]
pub enum Leaf<A: Allocator, W: Drop> {
    /// The command is over.
    Has(Outcome<A>),
    /// An act waits for its answer.
    Asks(Act<A>, W),
}

impl<A: Allocator, W: Drop> Leaf<A, W> {
    /// The same, with what waits for the answer converted by `waits`.
    pub fn map<V: Drop, F: FnOnce(W) -> V>(self, waits: F) -> Leaf<A, V>
        requires { F.IsAlwaysCallable waits }
        ensures { Maps (F.post waits) self result }
    {
        match self {
            Leaf::Has(outcome) => Leaf::Has(outcome),
            Leaf::Asks(act, own) => Leaf::Asks(act, waits(own)),
        }
    }
}

/// The command is over with a value.
pub fn gives<A: Allocator, W: Drop>(value: Value<A>) -> Leaf<A, W>
    ensures { HasOutcome result (outcome.Gives value) }
{
    Leaf::Has(Ok(value))
}

/// The command is over with the empty value.
pub fn empty<A: Allocator, W: Drop>() -> Leaf<A, W>
    ensures { HasOutcome result (outcome.Gives []) }
{
    Leaf::Has(Ok(Value::empty()))
}

/// The command is over with an error.
pub fn raises<A: Allocator + Copy, W: Drop>(
    alloc: A,
    fault: Fault<A>,
) -> Result<Leaf<A, W>, NoMemory>
    ensures { IfOk result (λ leaf. HasOutcome leaf (definition.raised fault)) }
{
    Ok(Leaf::Has(raised(alloc, fault)?))
}

/// The whole run stops.
pub fn stops<A: Allocator, W: Drop>(stop: Stop) -> Leaf<A, W>
    ensures { HasOutcome result (outcome.Stops (stop_of stop)) }
{
    Leaf::Has(Err(Leave::Stopped(stop)))
}

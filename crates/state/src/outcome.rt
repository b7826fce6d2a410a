//! How a part of a run ends.

ghost use Rattle.std.specs.Prelude.{◌≡◌, IfOk};
ghost use Rattle.state.specs.Prelude.{outcome_of};
ghost use Rattle.state.specs.View as definition;

use acts::{Fault, NoMemory};
use std::alloc::Allocator;
use tcltext::Value;

/// The codes with which a part of a run ends where it gives no plain value (Tcl(n), return codes).
#[derive(Clone, Copy, Debug, PartialEq, Eq)]
pub enum Code {
    /// 1: an error, whose value is its text.
    Error,
    /// 2: the procedure or script around it returns.
    Return,
    /// 3: the loop around it ends.
    Break,
    /// 4: the loop around it goes on with its next turn.
    Continue,
    /// 5: the `expect` around it goes on, and its timer starts anew (expect(1), exp_continue).
    Again,
    /// 5: the `expect` around it goes on, and its timer runs on (expect(1), exp_continue).
    AgainRunning,
}

/// What stops a whole run.
#[derive(Clone, Copy, Debug, PartialEq, Eq)]
pub enum Stop {
    /// The script asked for this status (exit(n)).
    Exit(i64),
    /// All ticks were used.
    Limit,
    /// A write failed.
    WriterFailed,
    /// The last answer does not fit its act.
    BadAnswer,
    /// The world had no more answers.
    NoMore,
}

/// How a part of a run ends where it gives no plain value.
#[derive(Drop)]
pub enum Leave<A: Allocator> {
    /// With another code than ok, and a value.
    Coded(Code, Value<A>),
    /// The whole run stops.
    Stopped(Stop),
}

/// How a part ends: with a value or otherwise.
pub type Outcome<A> = Result<Value<A>, Leave<A>>;

/// A script's error, as the end of a part. It is let go here, and not wherever one is raised: what
/// lets an error go is an end of each of its variants.
pub fn raised<A: Allocator + Copy>(alloc: A, fault: Fault<A>) -> Result<Outcome<A>, NoMemory>
    ensures { IfOk result (λ outcome. outcome_of outcome ≡ definition.raised fault) }
{
    let text = Value::new(alloc, fault.text(alloc)?)?;
    Ok(Err(Leave::Coded(Code::Error, text)))
}

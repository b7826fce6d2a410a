//! What the end of a loop's body means for the loop.

ghost use Rattle.std.specs.Prelude.{◌≡◌, MatchOption};
ghost use Rattle.state.specs.Prelude.{Ends, Course, Status, outcome_of};
ghost use Rattle.state.specs.Turn.{on_turn};

use crate::outcome::{Code, Leave, Outcome};
use std::alloc::Allocator;
use tcltext::Value;

/// How a loop ends after its body; `None` where it continues (break(n); continue(n)).
pub fn end_after_body<A: Allocator>(outcome: Outcome<A>) -> Option<Outcome<A>>
    ensures { (next : Status → Course) (s : Status) →
        let course = on_turn next s (outcome_of outcome) in
        MatchOption result (course ≡ next s) (λ end. course ≡ Ends (s, outcome_of end)) }
{
    match outcome {
        Ok(_) => None,
        Err(Leave::Coded(code, value)) => match code {
            Code::Continue => None,
            Code::Break => Some(Ok(Value::empty())),
            _ => Some(Err(Leave::Coded(code, value))),
        },
        Err(Leave::Stopped(stop)) => Some(Err(Leave::Stopped(stop))),
    }
}

//! Calls of procedures (proc(n)).

ghost use Rattle.std.specs.Prelude.{◌≡◌, ◌≤◌, [], None, Some, IfOk, option_map, if◌then◌else◌};
ghost use Rattle.state.specs.Prelude.{inside, Status, FitsState, outcome_of};
ghost use Rattle.nesting.specs.Nesting.{Nests, TicksFirst};
ghost use Rattle.nesting.specs.Calls as definition;
ghost use Rattle.nesting.specs.Called.{IsCalled};
ghost use Rattle.tclstate.specs.Pairs.{found};
ghost use Rattle.tclstate.specs.Scopes.{entered};

use crate::Nesting;
use crate::arguments::wrong_args;
use acts::{Fault, NoMemory};
use code::{CodedScript, Made};
use kept::Kept;
use state::outcome::raised;
use state::{Code, Leave, Outcome, State};
use std::alloc::Allocator;
use tclstate::{Formal, Formals, LocalFrame};
use tcltext::{Value, join_values};

/// What a call holds while its body runs: nothing, since its variables are in the scopes.
#[derive(Clone, Copy)]
pub struct Held;

/// Calls the procedure of a name with the words after it, or gives `None` where no procedure has
/// the name.
pub fn begin<A: Allocator + Copy>(
    alloc: A,
    kept: &mut Kept<A>,
    state: &mut State<A>,
    name: &[u8],
    words: &[Value<A>],
    levels: u8,
) -> Result<Option<Nesting<A, Held>>, NoMemory>
    ensures called { (s : Status) → FitsState state.old s → IfOk result (λ called.
        IsCalled definition.next_of called state.new levels name.now words.now s) }
    ensures left { state.new.left ≤ state.old.left }
{
    let Some(procedure) = state.procs.get(name) else {
        return Ok(None);
    };
    let mut frame = state.scopes.fresh_frame(alloc);
    let bound = bind_all(alloc, &mut frame, &procedure.formals, words)?;
    if !bound {
        return Ok(Some(Nesting::Has(wrong_args(alloc, name)?)));
    }
    let body = kept.get(procedure.body.as_slice())?;
    Ok(Some(run(alloc, state, frame, body, levels)?))
}

/// Ends a call and removes its variables, however its body ended.
pub fn resumed<A: Allocator + Copy>(
    alloc: A,
    state: &mut State<A>,
    outcome: Outcome<A>,
) -> Result<Nesting<A, Held>, NoMemory>
    ensures nests { (s : Status) → FitsState state.old s → IfOk result (λ nesting.
        Nests definition.next_of nesting state.new
        (definition.returned s (outcome_of outcome))) }
    ensures left { state.new.left ≤ state.old.left }
    ensures ticks { IfOk result (λ nesting.
        TicksFirst nesting state.new.left state.old.left) }
{
    state.scopes.pop_frame();
    Ok(Nesting::Has(ended(alloc, outcome)?))
}

/// Runs the body of a call with its variables, one level deeper.
fn run<A: Allocator + Copy>(
    alloc: A,
    state: &mut State<A>,
    frame: LocalFrame<A>,
    body: CodedScript<A>,
    levels: u8,
) -> Result<Nesting<A, Held>, NoMemory>
    ensures nests { (s : Status) → FitsState state.old s → IfOk result (λ nesting.
        Nests definition.next_of nesting state.new
        (inside levels body (record s { scopes = entered frame s.scopes })
        definition.returned)) }
    ensures left { state.new.left ≤ state.old.left }
{
    state.scopes.enter(frame)?;
    let Some(inner) = levels.checked_sub(1) else {
        let outcome = raised(alloc, Fault::TooManyNested)?;
        return resumed(alloc, state, outcome);
    };
    Ok(Nesting::Runs(Made::Script(body), inner, Held))
}

/// How a call ends, given how its body ended.
fn ended<A: Allocator + Copy>(alloc: A, outcome: Outcome<A>) -> Result<Outcome<A>, NoMemory>
    ensures { IfOk result (λ ended. outcome_of ended ≡ definition.ended (outcome_of outcome)) }
{
    match outcome {
        Ok(value) => Ok(Ok(value)),
        Err(Leave::Coded(Code::Error, text)) => Ok(Err(Leave::Coded(Code::Error, text))),
        Err(Leave::Coded(Code::Return, value)) => Ok(Ok(value)),
        Err(Leave::Coded(Code::Break, _)) => raised(alloc, Fault::BreakOutside),
        Err(Leave::Coded(Code::Continue, _)) => raised(alloc, Fault::ContinueOutside),
        Err(Leave::Coded(Code::Again, value)) => Ok(Err(Leave::Coded(Code::Again, value))),
        Err(Leave::Coded(Code::AgainRunning, value)) => {
            Ok(Err(Leave::Coded(Code::AgainRunning, value)))
        }
        Err(Leave::Stopped(stop)) => Ok(Err(Leave::Stopped(stop))),
    }
}

/// Makes the variables of a call, in a frame that has no names yet: each formal takes the next
/// word, or its default where no word is left. It is filled where it stands, since a frame is wide.
/// Gives false where the words are too few or too many.
fn bind_all<A: Allocator + Copy>(
    alloc: A,
    frame: &mut LocalFrame<A>,
    formals: &Formals<A>,
    words: &[Value<A>],
) -> Result<bool, NoMemory>
    requires { frame.old ≡ [] }
    ensures { IfOk result (λ bound. definition.frame_of formals.now words.now
        ≡ if bound then Some frame.new else None) }
{
    let (single, takes_rest) = formals.split();
    let mut rest = words;
    for formal in single {
        let Some(value) = taken(formal, rest)? else {
            return Ok(false);
        };
        frame.bind(alloc, formal.name.as_slice(), value)?;
        rest = behind(rest);
    }
    Ok(bind_rest(alloc, frame, takes_rest, rest)?)
}

/// What a formal takes: the next word, or its default where no word is left.
fn taken<A: Allocator>(formal: &Formal<A>, words: &[Value<A>]) -> Result<Option<Value<A>>, NoMemory>
    ensures { IfOk result (λ value. value ≡ definition.taken formal.now words.now) }
{
    match words {
        [word, ..] => Ok(Some(word.share()?)),
        [] => match &formal.default {
            Some(default) => Ok(Some(default.share()?)),
            None => Ok(None),
        },
    }
}

/// The words after the next one.
fn behind<A: Allocator>(words: &[Value<A>]) -> &[Value<A>]
    ensures { result.now ≡ definition.behind words.now }
{
    match words {
        [_, behind @ ..] => behind,
        [] => words,
    }
}

/// Gives a last `args` the remaining words as a list; without `args` no word may remain, and the
/// result is false where one does.
fn bind_rest<A: Allocator + Copy>(
    alloc: A,
    frame: &mut LocalFrame<A>,
    takes_rest: bool,
    words: &[Value<A>],
) -> Result<bool, NoMemory>
    ensures { IfOk result (λ bound.
        option_map (λ values. definition.given values frame.old)
        (definition.rest_of takes_rest words.now) ≡ if bound then Some frame.new else None) }
{
    if takes_rest {
        let list = Value::new(alloc, join_values(alloc, words)?)?;
        frame.bind(alloc, b"args", list)?;
        return Ok(true);
    }
    match words {
        [] => Ok(true),
        [_, ..] => Ok(false),
    }
}

//! Commands that are over at once: they run no script, take no branches and ask for no act.

ghost use Rattle.std.specs.Prelude.{◌≡◌, ◌≤◌, ◌∷◌, ℕ, List, false, IfOk, MatchOption};
ghost use Rattle.commands.specs.Commands as plain;
ghost use Rattle.runs.specs.Commands.{command};
ghost use Rattle.state.specs.Prelude.{FitsState, Status};
ghost use Rattle.steps.specs.Run.{IsDone};

use acts::NoMemory;
use commands::Began;
use expects::form::Form;
use nesting::Control;
use state::{Outcome, State};
use std::alloc::Allocator;
use tclstate::Procs;
use tcltext::Value;

/// Performs a command by its words, where it is over at once. `None` where a procedure has its
/// name, or it runs scripts, takes branches or asks for acts; nothing is done then.
///
/// # Errors
/// `NoMemory` where memory is refused.
pub(crate) fn perform<A: Allocator + Copy>(
    alloc: A,
    state: &mut State<A>,
    words: &[Value<A>],
) -> Result<Option<Outcome<A>>, NoMemory>
    ensures done { (levels : ℕ) (s : Status) → FitsState state.old s → IfOk result (λ done.
        MatchOption done (FitsState state.new s)
        (λ outcome. IsDone (command levels s words.now) outcome state.new)) }
    ensures left { state.new.left ≤ state.old.left }
{
    let [name, ..] = words else {
        return Ok(Some(Ok(Value::empty())));
    };
    if is_begun_elsewhere(&state.procs, name.as_slice()) {
        return Ok(None);
    }
    match commands::begin(alloc, state, words)? {
        Began::Has(outcome) => Ok(Some(outcome)),
        Began::Asks(_) => Ok(None),
    }
}

/// Whether this is the name of a procedure, of a command that runs scripts, or of one that takes
/// branches.
fn is_begun_elsewhere<A: Allocator>(procs: &Procs<A>, name: &[u8]) -> bool
    ensures { (levels : ℕ) (s : Status) (args : List (List ℕ)) → s.procedures ≡ procs.now →
        result ≡ false → command levels s (name.now ∷ args) ≡ plain.command s (name.now ∷ args) }
{
    procs.get(name).is_some() || Control::read(name).is_some() || Form::read(name).is_some()
}

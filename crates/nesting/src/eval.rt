//! `eval w ..` (eval(n)).

ghost use Rattle.std.specs.Prelude.{◌≡◌, ◌≤◌, IfOk};
ghost use Rattle.state.specs.Prelude.{within, Status, FitsState, outcome_of};
ghost use Rattle.nesting.specs.Nesting.{Nests};
ghost use Rattle.nesting.specs.Eval as definition;

use crate::Nesting;
use crate::arguments::wrong_args;
use acts::{Fault, NoMemory};
use code::Made;
use kept::Kept;
use pure::concatenated;
use state::outcome::raised;
use state::{Outcome, State};
use std::alloc::Allocator;
use tcltext::Value;

/// What `eval` holds while its script runs: nothing.
#[derive(Clone, Copy)]
pub enum Held {
    Script,
}

/// Runs the words as a script, joined as `concat` joins them.
pub fn begin<A: Allocator + Copy>(
    alloc: A,
    kept: &mut Kept<A>,
    state: &mut State<A>,
    args: &[Value<A>],
    levels: u8,
) -> Result<Nesting<A, Held>, NoMemory>
    ensures nests { (s : Status) → FitsState state.old s → IfOk result (λ nesting.
        Nests definition.next_of nesting state.new (definition.eval levels args.now s)) }
    ensures left { state.new.left ≤ state.old.left }
{
    if args.is_empty() {
        return Ok(Nesting::Has(wrong_args(alloc, b"eval")?));
    }
    let text = concatenated(alloc, args)?;
    run(alloc, kept, state, &text, levels)
}

/// Runs a script, one level deeper.
pub(crate) fn run<A: Allocator + Copy>(
    alloc: A,
    kept: &mut Kept<A>,
    state: &mut State<A>,
    text: &[u8],
    levels: u8,
) -> Result<Nesting<A, Held>, NoMemory>
    ensures nests { (s : Status) → FitsState state.old s → IfOk result (λ nesting.
        Nests definition.next_of nesting state.new
        (within levels text.now s definition.passed)) }
    ensures left { state.new.left ≡ state.old.left }
{
    let script = kept.get(text)?;
    let Some(inner) = levels.checked_sub(1) else {
        return Ok(Nesting::Has(raised(alloc, Fault::TooManyNested)?));
    };
    Ok(Nesting::Runs(Made::Script(script), inner, Held::Script))
}

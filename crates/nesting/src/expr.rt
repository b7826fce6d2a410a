//! `expr w ..` (expr(n)).

ghost use Rattle.std.specs.Prelude.{◌≡◌, IfOk};
ghost use Rattle.state.specs.Prelude.{Status, FitsState, outcome_of};
ghost use Rattle.nesting.specs.Expr as definition;
ghost use Rattle.nesting.specs.Expr.{next_of};
ghost use Rattle.nesting.specs.Nesting.{Nests, TicksFirst};

use crate::Nesting;
use crate::arguments::wrong_args;
use crate::formula::read;
use acts::NoMemory;
use code::Made;
use kept::KeptFormulas;
use operators::{Operand, result};
use pure::concatenated;
use state::outcome::raised;
use state::{Outcome, State};
use std::alloc::Allocator;
use tcltext::Value;

/// What `expr` holds while its formula is evaluated: nothing.
#[derive(Clone, Copy)]
pub enum Held {
    Formula,
}

/// Evaluates the formula that the words make.
///
/// # Errors
/// `NoMemory` where memory is refused.
pub fn begin<A: Allocator + Copy>(
    alloc: A,
    formulas: &mut KeptFormulas<A>,
    state: &mut State<A>,
    args: &[Value<A>],
    levels: u8,
) -> Result<Nesting<A, Held>, NoMemory>
    ensures nests { (s : Status) → FitsState state.old s → IfOk result (λ nesting.
        Nests next_of nesting state.new (definition.expr levels args.now s)) }
    ensures left { state.new.left ≡ state.old.left }
{
    if args.is_empty() {
        return Ok(Nesting::Has(wrong_args(alloc, b"expr")?));
    }
    let text = concatenated(alloc, args)?;
    match read(formulas, &text)? {
        Ok(formula) => Ok(Nesting::Runs(Made::Formula(formula), levels, Held::Formula)),
        Err(fault) => Ok(Nesting::Has(raised(alloc, fault)?)),
    }
}

/// Gives the result of the formula, which had this outcome.
///
/// # Errors
/// `NoMemory` where memory is refused.
pub fn resumed<A: Allocator + Copy>(
    alloc: A,
    state: &mut State<A>,
    held: Held,
    outcome: Outcome<A>,
) -> Result<Nesting<A, Held>, NoMemory>
    ensures nests { (s : Status) → FitsState state.old s → IfOk result (λ nesting.
        Nests next_of nesting state.new (next_of held s (outcome_of outcome))) }
    ensures left { state.new.left ≡ state.old.left }
    ensures ticks { IfOk result (λ nesting.
        TicksFirst nesting state.new.left state.old.left) }
{
    match outcome {
        Ok(value) => Ok(Nesting::Has(Ok(result(alloc, Operand::text(value))?))),
        Err(leave) => Ok(Nesting::Has(Err(leave))),
    }
}

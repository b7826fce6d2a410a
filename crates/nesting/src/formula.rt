//! Words of commands that are formulas.

ghost use Rattle.std.specs.Prelude.{◌≡◌, IfOk};
ghost use Rattle.state.specs.Prelude.{flaw_of, Course, Reaches, Status};
ghost use Rattle.nesting.specs.Formulas.{flaw_of_formula, with_formula};
ghost use Rattle.nesting.specs.Reading.{course_of_read};
ghost use Rattle.formulas.specs.Seen.{fault_of};
ghost use Rattle.tclparse.specs.Formula as tree;

use acts::{Fault, NoMemory};
use code::CodedFormula;
use formulas::ReadError;
use kept::KeptFormulas;
use state::faults::no_script;
use std::alloc::Allocator;

/// Reads a word as a formula, of which it gives the code, or that which is kept with the word; or
/// answers the script's error (expr(n)).
pub(crate) fn read<A: Allocator + Copy>(
    formulas: &mut KeptFormulas<A>,
    text: &[u8],
) -> Result<Result<CodedFormula<A>, Fault<A>>, NoMemory>
    ensures { (s : Status) (next : tree.Formula → Course) → IfOk result (λ read.
        Reaches (with_formula text.now s next) (course_of_read read s next)) }
{
    match formulas.read(text) {
        Ok(formula) => Ok(Ok(formula)),
        Err(ReadError::Fault(fault)) => Ok(Err(no_formula(fault))),
        Err(ReadError::Memory(refusal)) => Err(refusal),
    }
}

/// Why a text is no formula, as the script's error (expr(n)).
pub fn no_formula<A: Allocator>(fault: formulas::Fault) -> Fault<A>
    ensures { flaw_of result ≡ flaw_of_formula (fault_of fault) }
{
    match fault {
        formulas::Fault::Words(fault) => no_script(fault),
        formulas::Fault::Syntax => Fault::BadExpression,
    }
}

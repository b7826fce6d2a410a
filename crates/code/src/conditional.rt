//! The code of `if` whose words are texts (if(n)).

ghost use Rattle.std.specs.Prelude.{◌≡◌, [], Some, drop, IfOk, IfSome, OnOk};
ghost use Rattle.code.specs.Blocks.{BranchesBlock};
ghost use Rattle.code.specs.Branches as definition;
ghost use Rattle.code.specs.Branching.{branches_of};

use crate::branches::Branches;
use crate::formula::fill;
use crate::instruction::Instruction;
use crate::nest::Nest;
use memory::NoMemory;
use std::alloc::Allocator;
use tcltext::Value;

/// How many branches an `if` with code of its own has at most: each stands in a call within that of
/// the branch before it.
const MOST_BRANCHES: usize = 100;

/// Reads the words after `if`. `None` where they make no branches, or very many.
pub(crate) fn read_if<A: Allocator + Copy>(
    alloc: A,
    args: &[Value<A>],
) -> Result<Option<Branches<A>>, NoMemory>
    ensures { IfOk result (λ read. IfSome read (λ own.
        definition.branches args.now ≡ Some (branches_of own))) }
{
    match Branches::read(alloc, args)? {
        Some(own) if own.tests.len() <= MOST_BRANCHES => Ok(Some(own)),
        _ => Ok(None),
    }
}

/// Puts the code of what is done where no test holds: the last body, or the empty text.
fn emit_otherwise<A: Allocator + Copy, N: Nest<A>>(
    code: &mut Vec<Instruction<A>, A>,
    otherwise: &Option<Value<A>>,
    nest: &N,
) -> Result<(), NoMemory>
    ensures { OnOk result (BranchesBlock code.old.items code.new.items [] otherwise.now) }
{
    match otherwise {
        Some(body) => nest.put_body(code, body, 0)?,
        None => code.push(Instruction::Text(Value::empty()))?,
    }
    Ok(())
}

/// Puts the code of the branches from this place on, and of the last body.
#[cycle(emit_branches)]
fn emit_from<A: Allocator + Copy, N: Nest<A>>(
    code: &mut Vec<Instruction<A>, A>,
    own: &Branches<A>,
    from: usize,
    nest: &N,
) -> Result<(), NoMemory>
    ensures { OnOk result (BranchesBlock code.old.items code.new.items
        (drop from (branches_of own.now).tests) own.now.otherwise) }
{
    let Some(branch) = own.tests.get(from) else {
        return Ok(emit_otherwise(code, &own.otherwise, nest)?);
    };
    nest.put_expression(code, &branch.test)?;
    let unless = code.len();
    code.push(Instruction::Hole)?;
    nest.put_body(code, &branch.body, branch.after)?;
    let jump = code.len();
    code.push(Instruction::Hole)?;
    fill(code, unless, Instruction::Unless(code.len()));
    emit_from(code, own, from + 1, nest)?;
    fill(code, jump, Instruction::Jump(code.len()));
    Ok(())
}

/// Puts the code of all branches: a test, its body, a jump past the others, and what is left where
/// the test does not hold.
pub(crate) fn emit_branches<A: Allocator + Copy, N: Nest<A>>(
    code: &mut Vec<Instruction<A>, A>,
    own: &Branches<A>,
    nest: &N,
) -> Result<(), NoMemory>
    ensures { OnOk result (BranchesBlock code.old.items code.new.items
        (branches_of own.now).tests own.now.otherwise) }
{
    Ok(emit_from(code, own, 0, nest)?)
}

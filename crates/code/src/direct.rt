//! Commands with an instruction of their own, which takes the value of their last word.

ghost use Rattle.std.specs.Prelude.{ℕ, List, [], ◌∷◌, IfOk, IfSome};
ghost use Rattle.code.specs.Code.{IsDirect};
ghost use Rattle.code.specs.Literals.{IsLiteral};

use crate::instruction::Instruction;
use crate::literal::literal_of;
use memory::NoMemory;
use std::alloc::Allocator;
use tclparse::Word;
use tcltext::Value;

/// The instruction of a command that has the name of a variable and one word after its own name
/// (set(n); append(n); incr(n)).
pub(crate) fn direct_on<A: Allocator + Copy>(
    alloc: A,
    command: &Word<A>,
    name: &Word<A>,
) -> Result<Option<Instruction<A>>, NoMemory>
    ensures { IfOk result (λ read. IfSome read (λ it. (own text : List ℕ) ×
        IsLiteral command.now own × IsLiteral name.now text × IsDirect it (own ∷ text ∷ []))) }
{
    let Some(own) = literal_of(command) else {
        return Ok(None);
    };
    let Some(text) = literal_of(name) else {
        return Ok(None);
    };
    if own == b"set".as_slice() {
        return Ok(Some(Instruction::Set(Value::from_slice(alloc, text)?)));
    }
    if own == b"append".as_slice() {
        return Ok(Some(Instruction::Append(Value::from_slice(alloc, text)?)));
    }
    if own == b"incr".as_slice() {
        return Ok(Some(Instruction::Add(Value::from_slice(alloc, text)?)));
    }
    Ok(None)
}

/// The instruction of a command that has one word after its name (incr(n); return(n)).
pub(crate) fn direct_of<A: Allocator>(command: &Word<A>) -> Option<Instruction<A>>
    ensures { IfSome result (λ it. (name : List ℕ) ×
        IsLiteral command.now name × IsDirect it (name ∷ [])) }
{
    let name = literal_of(command)?;
    if name == b"incr".as_slice() {
        return Some(Instruction::Increment);
    }
    if name == b"return".as_slice() {
        return Some(Instruction::Return);
    }
    None
}

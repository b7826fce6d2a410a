//! The code of a script or of a formula, instruction by instruction.

use crate::shown::push_instruction;
use code::{Instruction, code_of, formula_code};
use formulas::{Formula, ReadError};
use memory::NoMemory;
use std::alloc::Allocator;
use tables::{Answers, name, push_shown};
use tclparse::Script;

/// The table of scripts and formulas with their instructions.
pub struct Coded;

impl Answers for Coded {
    fn answer<A: Allocator + Copy>(
        &self,
        row: &[Vec<u8>],
        answer: &mut Vec<u8, A>,
    ) -> Result<(), NoMemory> {
        let [kind, text] = row else {
            return Ok(());
        };
        match name(kind) {
            "script" => tell_instructions(answer, &script_code(*answer.allocator(), text)?),
            "formula" => tell_instructions(answer, &code_of_formula(*answer.allocator(), text)?),
            "places" => tell_places(answer, &script_code(*answer.allocator(), text)?),
            _ => Ok(()),
        }
    }
}

/// The code of a script.
pub fn script_code<A: Allocator + Copy>(
    alloc: A,
    text: &[u8],
) -> Result<Vec<Instruction<A>, A>, NoMemory> {
    let script = Script::read(alloc, text)?;
    code_of(alloc, &script)
}

/// The code of a formula; none where the text is no formula.
pub fn code_of_formula<A: Allocator + Copy>(
    alloc: A,
    text: &[u8],
) -> Result<Vec<Instruction<A>, A>, NoMemory> {
    match Formula::read(alloc, text) {
        Ok(formula) => formula_code(alloc, &formula),
        Err(ReadError::Memory(refusal)) => Err(refusal),
        Err(ReadError::Fault(_)) => Ok(Vec::new(alloc)),
    }
}

/// Writes each instruction, and a semicolon after it.
fn tell_instructions<A: Allocator + Copy>(
    answer: &mut Vec<u8, A>,
    code: &[Instruction<A>],
) -> Result<(), NoMemory> {
    for it in code {
        push_instruction(answer, it)?;
        answer.push(b';')?;
    }
    Ok(())
}

/// Writes where each command stands: how many bytes before the end of the text that it is in.
fn tell_places<A: Allocator + Copy>(
    answer: &mut Vec<u8, A>,
    code: &[Instruction<A>],
) -> Result<(), NoMemory> {
    for it in code {
        if let Instruction::Next(from_end) = it {
            push_shown(answer, *from_end)?;
            answer.push(b';')?;
        }
    }
    Ok(())
}

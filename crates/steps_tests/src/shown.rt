//! Instructions as texts.

use code::Instruction;
use memory::NoMemory;
use std::alloc::Allocator;
use tables::push_shown;
use tclparse::{Binary, Function, Unary};

/// Writes the name of an instruction, its numbers, and its text, with blanks between them.
pub fn push_instruction<A: Allocator + Copy>(
    answer: &mut Vec<u8, A>,
    it: &Instruction<A>,
) -> Result<(), NoMemory> {
    answer.extend_from_slice(name_of(it))?;
    for number in numbers_of(it) {
        if let Some(number) = number {
            answer.push(b' ')?;
            push_shown(answer, number)?;
        }
    }
    if let Some(text) = text_of(it) {
        answer.push(b' ')?;
        answer.extend_from_slice(text)?;
    }
    Ok(())
}

/// The name of an instruction of words, commands or formulas.
fn name_of<A: Allocator>(it: &Instruction<A>) -> &'static [u8] {
    match it {
        Instruction::Next(_) => b"next",
        Instruction::Text(_) => b"text",
        Instruction::Variable(_) => b"variable",
        Instruction::Element(_) => b"element",
        Instruction::Join => b"join",
        Instruction::Enter => b"enter",
        Instruction::Body(_) => b"body",
        Instruction::Leave => b"leave",
        Instruction::Run(_, _) => b"run",
        Instruction::Count(_) => b"count",
        Instruction::Spread => b"spread",
        Instruction::Command(_) => b"command",
        Instruction::Counted => b"counted",
        Instruction::Say => b"say",
        Instruction::Fault(_) => b"fault",
        Instruction::Numeral(_) => b"numeral",
        Instruction::Prefix(Unary::Not) => b"not",
        Instruction::Binary(Binary::Add) => b"add",
        Instruction::Call(Function::Max, _) => b"max",
        Instruction::AndAlso(_) => b"and also",
        Instruction::OrElse(_) => b"or else",
        Instruction::Truth => b"truth",
        Instruction::Evaluate(_) => b"evaluate",
        Instruction::Result => b"result",
        _ => name_of_own(it),
    }
}

/// The name of an instruction of a command that has code of its own.
fn name_of_own<A: Allocator>(it: &Instruction<A>) -> &'static [u8] {
    match it {
        Instruction::Unless(_) => b"unless",
        Instruction::Jump(_) => b"jump",
        Instruction::Unhidden(_, _) => b"unhidden",
        Instruction::Turn(_, _) => b"turn",
        Instruction::Step => b"step",
        Instruction::EndTurn => b"end turn",
        Instruction::Discard => b"discard",
        Instruction::Foreach(_, _, _) => b"foreach",
        Instruction::Deal(_) => b"deal",
        Instruction::More(_) => b"more",
        Instruction::Assign(_) => b"assign",
        Instruction::Begin(_, _) => b"begin",
        Instruction::Done => b"done",
        Instruction::Switch(_, _, _) => b"switch",
        Instruction::Equals(_, _, _) => b"equals",
        Instruction::Catch(_) => b"catch",
        Instruction::EndCatch => b"end catch",
        Instruction::Store(_) => b"store",
        Instruction::Set(_) => b"set",
        Instruction::Append(_) => b"append",
        Instruction::Add(_) => b"add to",
        Instruction::Increment => b"increment",
        Instruction::Return => b"return",
        _ => b"another",
    }
}

/// The numbers of an instruction: its places, or how many operands it takes.
fn numbers_of<A: Allocator>(it: &Instruction<A>) -> [Option<usize>; 2] {
    match it {
        Instruction::Body(n)
        | Instruction::Run(_, n)
        | Instruction::Count(n)
        | Instruction::Command(n)
        | Instruction::Call(_, n)
        | Instruction::AndAlso(n)
        | Instruction::OrElse(n)
        | Instruction::Unless(n)
        | Instruction::Jump(n)
        | Instruction::Unhidden(_, n)
        | Instruction::Foreach(_, _, n)
        | Instruction::Deal(n)
        | Instruction::More(n)
        | Instruction::Switch(_, _, n)
        | Instruction::Catch(n) => [Some(*n), None],
        Instruction::Turn(first, second)
        | Instruction::Begin(first, second)
        | Instruction::Equals(_, first, second) => [Some(*first), Some(*second)],
        _ => [None, None],
    }
}

/// The text or the name that an instruction holds.
fn text_of<A: Allocator>(it: &Instruction<A>) -> Option<&[u8]> {
    match it {
        Instruction::Text(text)
        | Instruction::Variable(text)
        | Instruction::Element(text)
        | Instruction::Numeral(text)
        | Instruction::Run(text, _)
        | Instruction::Evaluate(text)
        | Instruction::Unhidden(text, _)
        | Instruction::Foreach(text, _, _)
        | Instruction::Assign(text)
        | Instruction::Equals(text, _, _)
        | Instruction::Store(text)
        | Instruction::Set(text)
        | Instruction::Append(text)
        | Instruction::Add(text) => Some(text.as_slice()),
        _ => None,
    }
}

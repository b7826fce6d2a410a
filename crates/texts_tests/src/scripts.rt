//! Scripts and the words of their commands: their trees, long and deep ones.
//!
//! A tree is written as a text to compare: each word in `<` and `>`, `*` before one that is
//! expanded, `;` after each command. A variable is `${name}`, an element `$name(index)`, a script
//! stands in `[` and `]`.

use crate::texts::field;
use memory::NoMemory;
use std::alloc::Allocator;
use tables::{Answers, name, number, push_angled, push_shown, repeated};
use tclparse::{Command, Fault, Part, Script, Word, Words, variable_name};

#[cycle(show)]
fn show_part<A: Allocator>(answer: &mut Vec<u8, A>, part: &Part<A>) -> Result<(), NoMemory> {
    match part {
        Part::Literal(bytes) => answer.extend_from_slice(bytes.as_slice())?,
        Part::Variable(name) => {
            answer.extend_from_slice(b"${")?;
            answer.extend_from_slice(name.as_slice())?;
            answer.push(b'}')?;
        }
        Part::Element(name, index) => {
            answer.push(b'$')?;
            answer.extend_from_slice(name.as_slice())?;
            answer.push(b'(')?;
            show_parts(answer, index)?;
            answer.push(b')')?;
        }
        Part::Bracket(commands) => {
            answer.push(b'[')?;
            show_commands(answer, commands)?;
            answer.push(b']')?;
        }
    }
    Ok(())
}

#[cycle(show)]
fn show_parts<A: Allocator>(
    answer: &mut Vec<u8, A>,
    parts: &Vec<Part<A>, A>,
) -> Result<(), NoMemory> {
    for part in parts {
        show_part(answer, part)?;
    }
    Ok(())
}

#[cycle(show)]
fn show_words<A: Allocator>(
    answer: &mut Vec<u8, A>,
    words: &Vec<Word<A>, A>,
) -> Result<(), NoMemory> {
    for word in words {
        if word.expands {
            answer.push(b'*')?;
        }
        answer.push(b'<')?;
        show_parts(answer, &word.parts)?;
        answer.push(b'>')?;
    }
    Ok(())
}

#[cycle(show)]
fn show_commands<A: Allocator>(
    answer: &mut Vec<u8, A>,
    commands: &Vec<Command<A>, A>,
) -> Result<(), NoMemory> {
    for command in commands {
        show_words(answer, &command.words)?;
        answer.push(b';')?;
    }
    Ok(())
}

/// Writes a fault, if there is one, after what was read before it.
fn push_fault<A: Allocator + Copy>(
    answer: &mut Vec<u8, A>,
    fault: Option<Fault>,
) -> Result<(), NoMemory> {
    match fault {
        Some(fault) => push_shown(answer, format_args!(" ! {fault}")),
        None => Ok(()),
    }
}

/// The table of trees: scripts, braced arguments of `expect`, and names of variables.
pub struct Trees;

impl Answers for Trees {
    fn answer<A: Allocator + Copy>(
        &self,
        row: &[Vec<u8>],
        answer: &mut Vec<u8, A>,
    ) -> Result<(), NoMemory> {
        let text = field(row, 1);
        match name(field(row, 0)) {
            "script" => read_script(text, answer),
            "parts" => count_parts(text, answer),
            "argument" => read_argument(text, answer),
            _ => read_name(text, answer),
        }
    }
}

fn read_script<A: Allocator + Copy>(text: &[u8], answer: &mut Vec<u8, A>) -> Result<(), NoMemory> {
    let script = Script::read(*answer.allocator(), text)?;
    push_script(answer, &script)
}

fn push_script<A: Allocator + Copy>(
    answer: &mut Vec<u8, A>,
    script: &Script<A>,
) -> Result<(), NoMemory> {
    show_commands(answer, &script.commands)?;
    push_fault(answer, script.fault)
}

/// Writes how many parts the first word of a script has.
fn count_parts<A: Allocator + Copy>(text: &[u8], answer: &mut Vec<u8, A>) -> Result<(), NoMemory> {
    match parts_in(*answer.allocator(), text)? {
        Some(many) => push_shown(answer, many),
        None => Ok(()),
    }
}

/// How many parts the first word of a script has, if there is one.
fn parts_in<A: Allocator + Copy>(alloc: A, text: &[u8]) -> Result<Option<usize>, NoMemory> {
    let script = Script::read(alloc, text)?;
    Ok(first_parts(&script))
}

fn first_parts<A: Allocator>(script: &Script<A>) -> Option<usize> {
    let command = script.commands.first()?;
    let word = command.words.first()?;
    Some(word.parts.len())
}

fn read_argument<A: Allocator + Copy>(
    text: &[u8],
    answer: &mut Vec<u8, A>,
) -> Result<(), NoMemory> {
    let read = Words::read(*answer.allocator(), text)?;
    push_argument(answer, &read)
}

fn push_argument<A: Allocator + Copy>(
    answer: &mut Vec<u8, A>,
    read: &Words<A>,
) -> Result<(), NoMemory> {
    show_words(answer, &read.words)?;
    push_fault(answer, read.fault)
}

fn read_name<A: Allocator + Copy>(word: &[u8], answer: &mut Vec<u8, A>) -> Result<(), NoMemory> {
    let name = match variable_name(word) {
        Ok(name) => name,
        Err(fault) => return push_shown(answer, fault),
    };
    push_angled(answer, name.name)?;
    match name.index {
        Some(index) => push_angled(answer, index),
        None => Ok(()),
    }
}

/// The table of long and deep texts. Each is read in time linear in its length, or the program
/// would not end.
pub struct LongScripts;

impl Answers for LongScripts {
    fn answer<A: Allocator + Copy>(
        &self,
        row: &[Vec<u8>],
        answer: &mut Vec<u8, A>,
    ) -> Result<(), NoMemory> {
        let mut text = Vec::new(*answer.allocator());
        push_long(&mut text, row)?;
        if name(field(row, 0)) == "script" {
            count_commands(&text, answer)
        } else {
            count_words(&text, answer)
        }
    }
}

/// Writes a long text: a beginning, a piece many times, a middle, another piece as many times, and
/// an end.
fn push_long<A: Allocator + Copy>(text: &mut Vec<u8, A>, row: &[Vec<u8>]) -> Result<(), NoMemory> {
    let times = number(field(row, 3));
    text.extend_from_slice(field(row, 1))?;
    push_repeated(text, field(row, 2), times)?;
    text.extend_from_slice(field(row, 4))?;
    push_repeated(text, field(row, 5), times)?;
    Ok(text.extend_from_slice(field(row, 6))?)
}

/// Writes a piece many times.
pub fn push_repeated<A: Allocator + Copy>(
    text: &mut Vec<u8, A>,
    piece: &[u8],
    times: u64,
) -> Result<(), NoMemory> {
    let all = repeated(*text.allocator(), piece, times)?;
    Ok(text.extend_from_slice(&all)?)
}

fn count_commands<A: Allocator + Copy>(
    text: &[u8],
    answer: &mut Vec<u8, A>,
) -> Result<(), NoMemory> {
    let script = Script::read(*answer.allocator(), text)?;
    push_count(answer, script.commands.len(), script.fault)
}

fn count_words<A: Allocator + Copy>(text: &[u8], answer: &mut Vec<u8, A>) -> Result<(), NoMemory> {
    let read = Words::read(*answer.allocator(), text)?;
    push_count(answer, read.words.len(), read.fault)
}

fn push_count<A: Allocator + Copy>(
    answer: &mut Vec<u8, A>,
    many: usize,
    fault: Option<Fault>,
) -> Result<(), NoMemory> {
    push_shown(answer, many)?;
    push_fault(answer, fault)
}

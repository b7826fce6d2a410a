//! The commands that a code begins, with their words, the texts that it has run or evaluated, and
//! how it ends.

use crate::coded::{code_of_formula, script_code};
use crate::stand_ins::outcome_of;
use code::Instruction;
use memory::NoMemory;
use state::{Code, Leave, Outcome};
use std::alloc::Allocator;
use steps::{Progress, Spot, advance, resume};
use tables::{Answers, number, push_angled};
use tclstate::{Formals, FormalsError, Procedure, Procs, ScopeError, Scopes};
use tcltext::Value;

/// How many commands a row has at most.
const MOST_COMMANDS: u64 = 20;

/// The table of scripts, each with the ticks and levels that are left and with the name of a
/// procedure.
pub struct Scripts;

impl Answers for Scripts {
    fn answer<A: Allocator + Copy>(
        &self,
        row: &[Vec<u8>],
        answer: &mut Vec<u8, A>,
    ) -> Result<(), NoMemory> {
        let [ticks, levels, name, text] = row else {
            return Ok(());
        };
        let code = script_code(*answer.allocator(), text)?;
        let procs = procedures(*answer.allocator(), name)?;
        let levels = u8::try_from(number(levels)).unwrap_or(0);
        tell_run(answer, &procs, &code, number(ticks), levels)
    }
}

/// The table of formulas, for which three ticks and two levels are left.
pub struct Formulas;

impl Answers for Formulas {
    fn answer<A: Allocator + Copy>(
        &self,
        row: &[Vec<u8>],
        answer: &mut Vec<u8, A>,
    ) -> Result<(), NoMemory> {
        let [text] = row else {
            return Ok(());
        };
        let code = code_of_formula(*answer.allocator(), text)?;
        let procs = Procs::new(*answer.allocator());
        tell_run(answer, &procs, &code, 3, 2)
    }
}

/// A procedure of this name, or none where the name is empty.
fn procedures<A: Allocator + Copy>(alloc: A, name: &[u8]) -> Result<Procs<A>, NoMemory> {
    let mut procs = Procs::new(alloc);
    if name.is_empty() {
        return Ok(procs);
    }
    match Formals::read(alloc, b"args") {
        Ok(formals) => {
            let body = Value::empty();
            procs.define(alloc, name, Procedure { formals, body })?;
            Ok(procs)
        }
        Err(FormalsError::NoMemory(refusal)) => Err(refusal),
        Err(_) => Ok(procs),
    }
}

/// Three variables: `a`, `i` and the element `x2` of `t`.
fn variables<A: Allocator + Copy>(alloc: A) -> Result<Scopes<A>, NoMemory> {
    let mut scopes = Scopes::new(alloc);
    set(alloc, &mut scopes, b"a", None, b"1")?;
    set(alloc, &mut scopes, b"i", None, b"2")?;
    set(alloc, &mut scopes, b"t", Some(b"x2"), b"3")?;
    Ok(scopes)
}

fn set<A: Allocator + Copy>(
    alloc: A,
    scopes: &mut Scopes<A>,
    name: &[u8],
    index: Option<&[u8]>,
    text: &[u8],
) -> Result<(), NoMemory> {
    let value = Value::from_slice(alloc, text)?;
    match scopes.set(alloc, name, index, value) {
        Err(ScopeError::NoMemory(refusal)) => Err(refusal),
        _ => Ok(()),
    }
}

/// Writes the words of each command that a code begins, and each text that it has run or evaluated,
/// which a command of this name stands in for, and how the code ends, where these procedures are
/// defined and so many ticks and levels are left.
fn tell_run<A: Allocator + Copy>(
    answer: &mut Vec<u8, A>,
    procs: &Procs<A>,
    code: &[Instruction<A>],
    mut ticks: u64,
    levels: u8,
) -> Result<(), NoMemory> {
    let alloc = *answer.allocator();
    let mut scopes = variables(alloc)?;
    let mut spot = Spot::new(alloc, levels)?;
    let mut counts = 0;
    for _ in 0..MOST_COMMANDS {
        let progress = advance(alloc, code, &mut spot, &mut scopes, procs, &mut ticks)?;
        match progress {
            Progress::Begins | Progress::Says | Progress::Runs | Progress::Evaluates => {}
            _ => return tell_end(answer, progress, &spot.outcome),
        }
        spot.take_words()?;
        tell_words(answer, &spot.words)?;
        let outcome = outcome_of(alloc, &spot.words, &mut counts)?;
        let progress = resume(&mut spot, outcome)?;
        if progress != Progress::GoesOn {
            return tell_end(answer, progress, &spot.outcome);
        }
    }
    Ok(())
}

/// Writes the words of a command, each between angles, and a blank.
fn tell_words<A: Allocator>(answer: &mut Vec<u8, A>, words: &[Value<A>]) -> Result<(), NoMemory> {
    for word in words {
        push_angled(answer, word.as_slice())?;
    }
    Ok(answer.push(b' ')?)
}

/// Writes how a code ended: how its last command was left, and the value that came with that.
fn tell_end<A: Allocator>(
    answer: &mut Vec<u8, A>,
    progress: Progress,
    outcome: &Outcome<A>,
) -> Result<(), NoMemory> {
    if progress != Progress::Over {
        return Ok(answer.extend_from_slice(b"stuck")?);
    }
    let (name, value): (&[u8], &[u8]) = match outcome {
        Ok(value) => (b"ok", value.as_slice()),
        Err(Leave::Coded(code, value)) => (name_of(*code), value.as_slice()),
        Err(Leave::Stopped(_)) => return Ok(answer.extend_from_slice(b"stopped")?),
    };
    answer.extend_from_slice(name)?;
    push_angled(answer, value)
}

/// The name of a code, as the commands have it that leave by it.
fn name_of(code: Code) -> &'static [u8] {
    match code {
        Code::Error => b"error",
        Code::Return => b"return",
        Code::Break => b"break",
        Code::Continue => b"continue",
        _ => b"another",
    }
}

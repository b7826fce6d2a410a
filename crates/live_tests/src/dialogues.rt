//! Dialogues: acts with the calls that they make, and their answers.

use crate::listed::Script;
use crate::reading::call_of;
use acts::{Act, NoMemory, World};
use live::Live;
use rowfiles::RowFault;
use rowfiles::spelled::{act_of, is_act};
use rowfiles::spelling::push_answer;
use std::alloc::{Allocator, Global};
use std::time::Instant;
use tables::Answers;
use tcltext::split_list;

/// The table of dialogues.
#[derive(Drop)]
pub struct Dialogues {
    pub alloc: Global,
    /// The time from which those of the calls are counted.
    pub start: Instant,
}

impl Answers for Dialogues {
    fn answer<A: Allocator + Copy>(
        &self,
        row: &[Vec<u8>],
        answer: &mut Vec<u8, A>,
    ) -> Result<(), NoMemory> {
        match self.told(row) {
            Ok(told) => answer.extend_from_slice(told.as_bytes())?,
            Err(fault) => answer.extend_from_slice(fault.text().as_bytes())?,
        }
        Ok(())
    }
}

impl Dialogues {
    /// What comes of a row, as a text.
    fn told(&self, row: &[Vec<u8>]) -> Result<String, RowFault> {
        let mut fields = Vec::new(self.alloc);
        for field in row {
            fields.push(split_list(self.alloc, field)?)?;
        }
        let mut acts = Vec::new(self.alloc);
        let mut calls = Vec::new(self.alloc);
        for words in &fields {
            if is_act(words) {
                acts.push(act_of(self.alloc, words)?)?;
            } else {
                calls.push(call_of(words)?)?;
            }
        }
        calls.reverse();
        self.performed(&acts, Script::new(self.alloc, self.start, calls))
    }

    /// The answers to acts over a system that answers by a list, and how the list was kept to.
    fn performed(&self, acts: &[Act<Global>], script: Script<'_>) -> Result<String, RowFault> {
        let writers = (Vec::<u8>::new(self.alloc), Vec::<u8>::new(self.alloc));
        let mut live = Live::over(script, writers.0, writers.1);
        let mut told = String::new(self.alloc);
        for act in acts {
            push_answer(&mut told, &live.act(act))?;
            if let Some(refusal) = live.refusal() {
                write!(told, " ({refusal})")?;
            }
            told.push_str("; ")?;
        }
        push_course(&mut told, live.system())?;
        Ok(told)
    }
}

/// Writes how the list of a system was kept to.
fn push_course(told: &mut String, script: &Script<'_>) -> Result<(), RowFault> {
    let missing = script.missing();
    if !script.is_followed() {
        write!(told, "another call, {missing} left")?;
    } else if 0 < missing {
        write!(told, "{missing} calls left")?;
    } else {
        told.push_str("all")?;
    }
    Ok(())
}

//! Which answers fit which acts.

use acts::fits;
use memory::NoMemory;
use rowfiles::RowFault;
use rowfiles::spelled::{act_of, answer_of};
use std::alloc::{Allocator, Global};
use tables::Answers;
use tcltext::split_list;

/// The answers: the columns of the table of what fits.
const ANSWERS: [&str; 15] = [
    "done",
    "failed 0",
    "failed 3",
    "failed 4",
    "started 100",
    "refused",
    "exited 255",
    "exited -",
    "arrive exp4 {}",
    "arrive exp5 x",
    "arrive exp6 x",
    "ended exp4",
    "ended exp6",
    "timeout",
    "nomore",
];

/// The table of acts, with a `y` for each answer that fits.
#[derive(Drop)]
pub struct Fitting {
    pub alloc: Global,
}

impl Answers for Fitting {
    fn answer<A: Allocator + Copy>(
        &self,
        row: &[Vec<u8>],
        answer: &mut Vec<u8, A>,
    ) -> Result<(), NoMemory> {
        let [act] = row else {
            return Ok(());
        };
        match self.marks(act) {
            Ok(marks) => answer.extend_from_slice(&marks)?,
            Err(fault) => answer.extend_from_slice(fault.text().as_bytes())?,
        }
        Ok(())
    }
}

impl Fitting {
    /// A mark for each answer: whether it fits the act that a text spells.
    fn marks(&self, act: &[u8]) -> Result<Vec<u8>, RowFault> {
        let act = act_of(self.alloc, &split_list(self.alloc, act)?)?;
        let mut marks = Vec::new(self.alloc);
        for text in &ANSWERS {
            let answer = answer_of(self.alloc, &split_list(self.alloc, text.as_bytes())?)?;
            marks.push(if fits(&act, &answer) { b'y' } else { b'-' })?;
        }
        Ok(marks)
    }
}

//! What a row is: a script with its course.

use crate::end::End;
use acts::{Act, Answer, Limits};
use std::alloc::{AllocError, Allocator, Global};

/// How many bytes the script and the answers of a row may have at most for it to be run in each way
/// there is.
const BULK: usize = 50_000;

/// A script, the acts that it has to perform with the answers to them, and its end.
#[derive(Drop)]
pub struct Row {
    /// What the row shows.
    pub title: String,
    pub script: Vec<u8>,
    /// The arguments of the run, of which the first is `argv0`.
    pub args: Vec<Vec<u8>>,
    pub limits: Limits,
    pub exchanges: Vec<Exchange>,
    pub end: End,
    pub printed: Printed,
    /// The text that is replayed, where it is not the record of the answers. Such a row is only
    /// played.
    pub record: Option<Vec<u8>>,
}

/// An act and its answer.
#[derive(Drop)]
pub struct Exchange {
    pub act: Act<Global>,
    pub answer: Answer<Global>,
    /// Whether the script itself goes on after an error of this act.
    pub is_caught: bool,
}

/// What a call of the program has to print, as far as a row says it.
#[derive(Drop)]
pub struct Printed {
    pub out: Option<Vec<u8>>,
    pub err: Option<Vec<u8>>,
    pub status: Option<u8>,
}

impl Exchange {
    /// How many bytes come with the answer.
    fn answer_bytes(&self) -> usize {
        match &self.answer {
            Answer::Arrive(_, bytes) => bytes.len(),
            _ => 0,
        }
    }
}

/// A copy of an answer, held by another allocator.
pub fn answer_in<A: Allocator>(alloc: A, answer: &Answer<Global>) -> Result<Answer<A>, AllocError> {
    Ok(match answer {
        Answer::Done => Answer::Done,
        Answer::Failed(sent) => Answer::Failed(*sent),
        Answer::Started(process) => Answer::Started(*process),
        Answer::Refused => Answer::Refused,
        Answer::Exited(status) => Answer::Exited(*status),
        Answer::Arrive(id, bytes) => Answer::Arrive(*id, Vec::from_slice(alloc, bytes)?),
        Answer::Ended(id) => Answer::Ended(*id),
        Answer::TimedOut => Answer::TimedOut,
        Answer::NoMore => Answer::NoMore,
    })
}

impl Row {
    /// Whether a row is too large to be run hundreds of times.
    pub fn is_bulky(&self) -> bool {
        let mut bytes = self.script.len();
        for exchange in &self.exchanges {
            bytes = bytes.saturating_add(exchange.answer_bytes());
        }
        BULK < bytes
    }

    /// The answers to the acts before a place, held by another allocator.
    pub fn answers_before<A: Allocator + Copy>(
        &self,
        alloc: A,
        place: usize,
    ) -> Result<Vec<Answer<A>, A>, AllocError> {
        let mut answers = Vec::new(alloc);
        for exchange in self.exchanges.iter().take(place) {
            answers.push(answer_in(alloc, &exchange.answer)?)?;
        }
        Ok(answers)
    }

    /// The answers to all acts, held by another allocator.
    pub fn answers<A: Allocator + Copy>(&self, alloc: A) -> Result<Vec<Answer<A>, A>, AllocError> {
        self.answers_before(alloc, self.exchanges.len())
    }

    /// The arguments, held by another allocator.
    pub fn args_in<A: Allocator + Copy>(&self, alloc: A) -> Result<Vec<Vec<u8, A>, A>, AllocError> {
        copies_in(alloc, &self.args)
    }
}

/// Copies of words, held by another allocator.
pub fn copies_in<A: Allocator + Copy>(
    alloc: A,
    words: &[Vec<u8>],
) -> Result<Vec<Vec<u8, A>, A>, AllocError> {
    let mut copies = Vec::new(alloc);
    for word in words {
        copies.push(Vec::from_slice(alloc, word)?)?;
    }
    Ok(copies)
}

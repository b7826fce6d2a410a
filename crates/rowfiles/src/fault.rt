//! What is wrong with a text of rows.

use acts::NoMemory;
use std::alloc::{AllocError, AllocFailed};
use tcltext::ListFault;

/// What is wrong with a line.
#[derive(Clone, Copy)]
pub enum RowFault {
    NoMemory(NoMemory),
    NoList,
    WordMissing,
    WordTooMany,
    NoNumber,
    NoId,
    NoRow,
    NoPart,
    NoLimit,
    NoAct,
    NoActBefore,
    NoMode,
    NoTimer,
    NoAnswer,
    AnswerMissing,
    NoEnd,
    NoErrorText,
}

/// A line that is wrong, counted from 1, and what is wrong with it.
#[derive(Clone, Copy)]
pub struct LineFault {
    pub line: usize,
    pub fault: RowFault,
}

impl RowFault {
    /// What is wrong, in words.
    pub fn text(self) -> &'static str {
        match self {
            RowFault::NoMemory(_) => "no memory",
            RowFault::NoList => "no list of words",
            RowFault::WordMissing => "a word is missing",
            RowFault::WordTooMany => "a word too many",
            RowFault::NoNumber => "no number",
            RowFault::NoId => "no id",
            RowFault::NoRow => "no row begins here",
            RowFault::NoPart => "no part of a row",
            RowFault::NoLimit => "no limit",
            RowFault::NoAct => "no act",
            RowFault::NoActBefore => "no act stands before",
            RowFault::NoMode => "no mode of a log",
            RowFault::NoTimer => "no timer",
            RowFault::NoAnswer => "no answer",
            RowFault::AnswerMissing => "an act lacks its answer",
            RowFault::NoEnd => "no end",
            RowFault::NoErrorText => "no text of an error",
        }
    }
}

impl From<AllocError> for RowFault {
    fn from(refusal: AllocError) -> RowFault {
        RowFault::NoMemory(refusal.into())
    }
}

impl<T: Drop> From<AllocFailed<T>> for RowFault {
    fn from(failed: AllocFailed<T>) -> RowFault {
        RowFault::NoMemory(failed.into())
    }
}

impl From<ListFault> for RowFault {
    fn from(fault: ListFault) -> RowFault {
        match fault {
            ListFault::NoMemory(refused) => RowFault::NoMemory(refused),
            _ => RowFault::NoList,
        }
    }
}

//! What an answer is turned into.

use acts::{Act, Answer};
use std::alloc::Global;

/// What an answer is turned into.
#[derive(Clone, Copy)]
pub enum Turn {
    NoMore,
    /// An answer that fits no act of its kind.
    Unfit,
    /// A write that fails before its first byte.
    FailedAtOnce,
    /// A write that fails although all bytes went out.
    FailedBehind,
    /// A write that fails after more bytes than it has.
    FailedBeyond,
    Refused,
}

/// Each turn.
pub const TURNS: [Turn; 6] = [
    Turn::NoMore,
    Turn::Unfit,
    Turn::FailedAtOnce,
    Turn::FailedBehind,
    Turn::FailedBeyond,
    Turn::Refused,
];

impl Turn {
    /// The answer to an act, where this turn has one for it.
    pub fn answer(self, act: &Act<Global>) -> Option<Answer<Global>> {
        match self {
            Turn::NoMore => Some(Answer::NoMore),
            Turn::Unfit => Some(unfit(act)),
            Turn::FailedAtOnce => {
                let _bytes = written(act)?;
                Some(Answer::Failed(0))
            }
            Turn::FailedBehind => Some(Answer::Failed(written(act)?)),
            Turn::FailedBeyond => Some(Answer::Failed(written(act)?.saturating_add(1))),
            Turn::Refused => refusal(act),
        }
    }
}

/// An answer that fits no act like this one.
fn unfit(act: &Act<Global>) -> Answer<Global> {
    match act {
        Act::Reap(_) => Answer::Refused,
        _ => Answer::Exited(None),
    }
}

/// How many bytes an act writes, if it writes.
fn written(act: &Act<Global>) -> Option<u64> {
    match act {
        Act::Out(bytes) | Act::Err(bytes) | Act::Log(bytes) | Act::Send(_, bytes) => {
            Some(bytes.len() as u64)
        }
        _ => None,
    }
}

/// The refusal of an act that can be refused.
fn refusal(act: &Act<Global>) -> Option<Answer<Global>> {
    match act {
        Act::Spawn(_, _) | Act::Connect(_, _, _) | Act::OpenLog(_, _) => Some(Answer::Refused),
        _ => None,
    }
}

//! The course of a run: its acts, a line each, and its end.

use rowfiles::spelling::{push_act, push_end};
use rowfiles::{End, Row};
use std::alloc::{AllocError, Global};

/// How a run ended.
#[derive(Drop)]
pub enum Ended {
    /// It came to an end that rows can state.
    End(End),
    /// Memory was refused.
    NoMemory,
    /// A session did what no session may do.
    Broken(Breach),
}

/// What no session may do.
#[derive(Clone, Copy)]
pub enum Breach {
    /// It asks for acts without ever ending.
    Endless,
    /// It goes on after its end.
    GoesOn,
    /// It has lost the end that it gave.
    EndLost,
    /// It goes on after a refusal of memory.
    GoesOnRefused,
    /// It has an end although memory was refused.
    EndsRefused,
}

impl Breach {
    /// What the session did.
    fn text(self) -> &'static str {
        match self {
            Breach::Endless => "a session has no end",
            Breach::GoesOn => "a session goes on after its end",
            Breach::EndLost => "a session has lost its end",
            Breach::GoesOnRefused => "a session goes on after a refusal of memory",
            Breach::EndsRefused => "a refused session has an end",
        }
    }
}

impl Ended {
    /// The line of a run that ended in this way.
    pub fn text(&self, alloc: Global) -> Result<String, AllocError> {
        match self {
            Ended::End(end) => end_text(alloc, end),
            Ended::NoMemory => String::from_str(alloc, REFUSED),
            Ended::Broken(breach) => String::from_str(alloc, breach.text()),
        }
    }
}

/// The acts of a run as lines, each with its newline, and its end.
#[derive(Drop)]
pub struct Course {
    pub acts: String,
    pub end: String,
}

/// The end of a run that was refused memory.
const REFUSED: &str = "NoMemory";

impl Course {
    /// The course that a row states.
    pub fn of_row(alloc: Global, row: &Row) -> Result<Course, AllocError> {
        let acts = acts_before(alloc, row, row.exchanges.len())?;
        let end = end_text(alloc, &row.end)?;
        Ok(Course { acts, end })
    }

    /// The acts and the end, as one text.
    pub fn text(&self) -> Result<String, AllocError> {
        let mut text = self.acts.clone()?;
        text.push_str(self.end.as_str())?;
        text.push_str("\n")?;
        Ok(text)
    }

    /// Whether this is the whole course, or, where memory was refused, a beginning of it.
    pub fn is_like(&self, whole: &Course, is_refused: bool) -> bool {
        if is_refused && self.end.as_str() == REFUSED {
            whole.acts.as_str().starts_with(self.acts.as_str())
        } else {
            self.acts.as_str() == whole.acts.as_str() && self.end.as_str() == whole.end.as_str()
        }
    }
}

fn end_text(alloc: Global, end: &End) -> Result<String, AllocError> {
    let mut text = String::new(alloc);
    push_end(&mut text, end)?;
    Ok(text)
}

/// The course that a row states, as one text.
pub fn course_text(alloc: Global, row: &Row) -> Result<String, AllocError> {
    Course::of_row(alloc, row)?.text()
}

/// The acts of a row before a place, as lines.
pub fn acts_before(alloc: Global, row: &Row, place: usize) -> Result<String, AllocError> {
    let mut text = String::new(alloc);
    for exchange in row.exchanges.iter().take(place) {
        push_act(&mut text, &exchange.act)?;
        text.push_str("\n")?;
    }
    Ok(text)
}

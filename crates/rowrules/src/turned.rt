//! One answer of a row turned into another. What is expected then is computed from the row: its
//! acts up to the turned answer stay.

use crate::closings::push_closings;
use crate::course::{Course, acts_before};
use crate::error::push_error;
use crate::product::{Product, WAYS, Way};
use crate::report::Report;
use crate::turn::TURNS;
use crate::whole::course;
use acts::{Act, Answer, fits};
use rowfiles::row::answer_in;
use rowfiles::spelling::{push_answer, push_word};
use rowfiles::{Exchange, Row};
use std::alloc::{AllocError, Global};

/// How many of the first acts of a row have their answers turned.
const ACTS: usize = 100;

/// An act of a row, with another answer than its own.
#[derive(Clone, Copy)]
struct Turned<'r> {
    row: &'r Row,
    /// Where the act stands, the first at 0.
    place: usize,
    exchange: &'r Exchange,
    answer: &'r Answer<Global>,
}

/// Runs a row with each of its answers turned.
pub fn run_turned<P: Product>(
    alloc: Global,
    product: &P,
    report: &mut Report,
    row: &Row,
) -> Result<(), AllocError> {
    for (place, exchange) in row.exchanges.iter().enumerate().take(ACTS) {
        run_turns(alloc, product, report, row, place, exchange)?;
    }
    Ok(())
}

/// Runs a row with each other answer to an act.
fn run_turns<P: Product>(
    alloc: Global,
    product: &P,
    report: &mut Report,
    row: &Row,
    place: usize,
    exchange: &Exchange,
) -> Result<(), AllocError> {
    for turn in TURNS {
        if let Some(answer) = turn.answer(&exchange.act) {
            let turned = Turned {
                row,
                place,
                exchange,
                answer: &answer,
            };
            turned.run(alloc, product, report)?;
        }
    }
    Ok(())
}

impl Turned<'_> {
    /// Runs the row with this answer, unless it is the act's own.
    fn run<P: Product>(
        &self,
        alloc: Global,
        product: &P,
        report: &mut Report,
    ) -> Result<(), AllocError> {
        let own = answer_text(alloc, &self.exchange.answer)?;
        let turned = answer_text(alloc, self.answer)?;
        if own.as_str() == turned.as_str() {
            return Ok(());
        }
        self.run_ways(alloc, product, report, turned.as_str())
    }

    /// Runs the row by each way with this answer, which is spelled so.
    fn run_ways<P: Product>(
        &self,
        alloc: Global,
        product: &P,
        report: &mut Report,
        turned: &str,
    ) -> Result<(), AllocError> {
        let wanted = self.wanted(alloc)?;
        for way in WAYS {
            let came = self.came(alloc, product, way)?;
            let name = way.name();
            let number = self.number();
            let by = format!(in alloc; "{name}, answer {number} turned to {turned}")?;
            let title = self.row.title.as_str();
            report.compare(title, by.as_str(), wanted.as_str(), came.as_str())?;
        }
        Ok(())
    }
}

impl Turned<'_> {
    /// The number of the answer, counted from 1.
    fn number(&self) -> usize {
        self.place.saturating_add(1)
    }

    /// Whether the act with this answer is an error of the script.
    fn is_error(&self) -> bool {
        let is_kind = match &self.exchange.act {
            Act::Send(_, _) => matches!(self.answer, Answer::Failed(_)),
            _ => matches!(self.answer, Answer::Refused),
        };
        is_kind && fits(&self.exchange.act, self.answer)
    }

    /// Whether the script catches the error, and so decides itself how it continues.
    fn is_open(&self) -> bool {
        self.exchange.is_caught && self.is_error()
    }

    /// The course of the row with this answer, by a way, or only the acts up to it where the script
    /// catches an error.
    fn came<P: Product>(&self, alloc: Global, product: &P, way: Way) -> Result<String, AllocError> {
        let mut answers = self.row.answers_before(alloc, self.place)?;
        answers.push(answer_in(alloc, self.answer)?)?;
        let came = course(alloc, product, way, self.row, answers)?;
        if self.is_open() {
            beginning(&came, self.number())
        } else {
            came.text()
        }
    }

    /// The expected course with this answer, or only the acts up to it where the script catches an
    /// error.
    fn wanted(&self, alloc: Global) -> Result<String, AllocError> {
        let mut text = acts_before(alloc, self.row, self.number())?;
        if !self.is_open() {
            self.push_rest(&mut text)?;
        }
        Ok(text)
    }

    /// Writes the expected course after the act.
    fn push_rest(&self, text: &mut String) -> Result<(), AllocError> {
        if matches!(self.answer, Answer::NoMore) {
            text.push_str("NoMore\n")
        } else if !fits(&self.exchange.act, self.answer) {
            let number = self.number();
            writeln!(text, "BadAnswer {number}")
        } else if self.is_error() {
            self.push_raised(text)
        } else {
            push_closings(text, self.row, self.place, self.answer)?;
            text.push_str("WriterFailed\n")
        }
    }

    /// Writes the rest of the course after an error that nothing catches: its message, the closings
    /// and the end.
    fn push_raised(&self, text: &mut String) -> Result<(), AllocError> {
        let mut error = Vec::new(*text.allocator());
        push_error(&mut error, &self.exchange.act, self.answer)?;
        error.push(b'\n')?;
        push_line(text, "Err", &error)?;
        push_closings(text, self.row, self.place, self.answer)?;
        let _newline = error.pop();
        push_line(text, "Error", &error)
    }
}

fn answer_text(alloc: Global, answer: &Answer<Global>) -> Result<String, AllocError> {
    let mut text = String::new(alloc);
    push_answer(&mut text, answer)?;
    Ok(text)
}

/// Writes a line that consists of a name and a word.
fn push_line(text: &mut String, name: &str, word: &[u8]) -> Result<(), AllocError> {
    text.push_str(name)?;
    push_word(text, word)?;
    text.push_str("\n")
}

/// The first acts of a course.
fn beginning(course: &Course, acts: usize) -> Result<String, AllocError> {
    let mut text = String::new(*course.acts.allocator());
    for line in course.acts.lines().take(acts) {
        text.push_str(line)?;
        text.push_str("\n")?;
    }
    Ok(text)
}

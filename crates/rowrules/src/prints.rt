//! What a call of the program has to print for a row, by the row's acts and its end.

use acts::{Act, Answer};
use rowfiles::spelling::push_word;
use rowfiles::{End, Printed, Row};
use std::alloc::{AllocError, Global};

/// The line of a writer that failed.
pub const OUTPUT_FAILED: &str = "rx: output failed\n";

/// What goes to standard output and standard error, and the status.
#[derive(Drop)]
pub struct Prints {
    pub out: Vec<u8>,
    pub err: Vec<u8>,
    pub status: u8,
}

impl Prints {
    /// What the acts of a row print, without the line of its end.
    pub fn of_acts(alloc: Global, row: &Row) -> Result<Prints, AllocError> {
        let mut prints = Prints {
            out: Vec::new(alloc),
            err: Vec::new(alloc),
            status: status_of(&row.end),
        };
        for exchange in &row.exchanges {
            prints.take(&exchange.act, &exchange.answer)?;
        }
        Ok(prints)
    }

    /// What a call prints for a row.
    pub fn of_row(alloc: Global, row: &Row) -> Result<Prints, AllocError> {
        let mut prints = Prints::of_acts(alloc, row)?;
        push_line(&mut prints.err, &row.end)?;
        Ok(prints)
    }

    /// Adds the bytes that go out by an act with this answer.
    fn take(&mut self, act: &Act<Global>, answer: &Answer<Global>) -> Result<(), AllocError> {
        match act {
            Act::Out(bytes) => self.out.extend_from_slice(gone(bytes, answer)),
            Act::Err(bytes) => self.err.extend_from_slice(gone(bytes, answer)),
            _ => Ok(()),
        }
    }

    /// Replaces the parts for which the row itself says what is printed.
    pub fn say(&mut self, printed: &Printed) -> Result<(), AllocError> {
        if let Some(out) = &printed.out {
            self.out = out.clone()?;
        }
        if let Some(err) = &printed.err {
            self.err = err.clone()?;
        }
        if let Some(status) = printed.status {
            self.status = status;
        }
        Ok(())
    }

    /// A copy of these prints.
    pub fn copy(&self) -> Result<Prints, AllocError> {
        let out = self.out.clone()?;
        let err = self.err.clone()?;
        Ok(Prints {
            out,
            err,
            status: self.status,
        })
    }

    /// The two outputs and the status as lines.
    pub fn text(&self, alloc: Global) -> Result<String, AllocError> {
        let mut text = String::new(alloc);
        text.push_str("out:")?;
        push_word(&mut text, &self.out)?;
        text.push_str("\nerr:")?;
        push_word(&mut text, &self.err)?;
        let status = self.status;
        writeln!(text, "\nstatus: {status}")?;
        Ok(text)
    }

    /// Whether a call printed the whole, or, where memory was refused, a beginning of what the acts
    /// print and then the line that reports the refusal.
    pub fn is_like(&self, whole: &Prints, by_acts: &Prints, is_refused: bool) -> bool {
        if is_refused && self.status == NO_MEMORY {
            self.is_beginning(whole, by_acts)
        } else {
            self.status == whole.status && self.out == whole.out && self.err == whole.err
        }
    }

    fn is_beginning(&self, whole: &Prints, by_acts: &Prints) -> bool {
        match self.err.strip_suffix(b"rx: no memory\n") {
            Some(err) => by_acts.err.starts_with(err) && whole.out.starts_with(&self.out),
            None => false,
        }
    }
}

/// The status of refused memory.
const NO_MEMORY: u8 = 6;

/// The bytes that go out of a text that is written.
fn gone<'a>(bytes: &'a [u8], answer: &Answer<Global>) -> &'a [u8] {
    match answer {
        Answer::Done => bytes,
        Answer::Failed(sent) => front(bytes, *sent),
        _ => &[],
    }
}

/// The first `sent` bytes of a text, or none where it has fewer.
fn front(bytes: &[u8], sent: u64) -> &[u8] {
    match usize::try_from(sent) {
        Ok(sent) => bytes.get(..sent).unwrap_or(&[]),
        Err(_) => &[],
    }
}

/// The status of an end.
fn status_of(end: &End) -> u8 {
    match end {
        End::Exit(number) => u8::try_from(number.rem_euclid(256)).unwrap_or(0),
        End::Error(_) => 1,
        End::Limit => 3,
        End::WriterFailed => 4,
        End::BadAnswer(_) | End::NoMore => 5,
    }
}

/// Writes the line that an end has on standard error.
fn push_line(text: &mut Vec<u8>, end: &End) -> Result<(), AllocError> {
    match end {
        End::Exit(_) | End::Error(_) => Ok(()),
        End::Limit => text.extend_from_slice(b"rx: command limit reached\n"),
        End::WriterFailed => text.extend_from_slice(OUTPUT_FAILED.as_bytes()),
        End::BadAnswer(place) => {
            let line = format!(in *text.allocator(); "rx: answer {place} does not fit\n")?;
            text.extend_from_slice(line.as_bytes())
        }
        End::NoMore => text.extend_from_slice(b"rx: no more answers\n"),
    }
}

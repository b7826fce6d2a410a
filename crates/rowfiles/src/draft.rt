//! A row as far as it has been read.

use crate::end::End;
use crate::fault::RowFault;
use crate::row::{Exchange, Printed, Row};
use crate::spelled::{act_of, answer_of, end_of, is_act, usual_answer};
use crate::words::{Words, number};
use acts::{Act, Answer, Limits};
use std::alloc::Global;
use tcltext::split_list;

/// The ticks of a run where its row states none.
const TICKS: u64 = 10_000_000;

/// The blanks before a line of a script or an act.
const INDENT: &str = "    ";

/// A row that is being read.
#[derive(Drop)]
pub struct Draft {
    row: Row,
    block: Block,
    acts: Vec<Asked>,
    end: Option<Vec<Vec<u8>>>,
}

/// A part of a row that takes several lines.
#[derive(Clone, Copy)]
enum Block {
    None,
    /// The script, of which no line came yet.
    Script,
    /// The script after its first line.
    Further,
    Acts,
}

/// The words of an act, and of its answer where one is written, with the number of its line.
#[derive(Clone, Drop)]
struct Asked {
    line: usize,
    act: Vec<Vec<u8>>,
    answer: Option<Vec<Vec<u8>>>,
    is_caught: bool,
}

/// What a line among the acts is.
#[derive(Clone, Copy)]
enum Line {
    Act,
    Answer,
    Caught,
    Again,
}

/// Whether a line is empty or a comment.
pub fn is_comment(line: &str) -> bool {
    line.is_empty() || line.starts_with('#')
}

impl Draft {
    /// A draft of the row with this title, of which nothing else was read yet.
    pub fn new(alloc: Global, title: &str) -> Result<Draft, RowFault> {
        let limits = limits(TICKS)?;
        let title = String::from_str(alloc, title)?;
        Ok(Draft {
            row: Row {
                title,
                script: Vec::new(alloc),
                args: Vec::new(alloc),
                limits,
                exchanges: Vec::new(alloc),
                end: End::Exit(0),
                printed: Printed {
                    out: None,
                    err: None,
                    status: None,
                },
                record: None,
            },
            block: Block::None,
            acts: Vec::new(alloc),
            end: None,
        })
    }

    /// Takes the next line, which has this number.
    pub fn take(&mut self, alloc: Global, number: usize, line: &str) -> Result<(), RowFault> {
        match line.strip_prefix(INDENT) {
            Some(inner) => self.take_inner(alloc, number, inner),
            None => self.take_part(alloc, line),
        }
    }

    /// Takes a line that names a part of the row.
    fn take_part(&mut self, alloc: Global, line: &str) -> Result<(), RowFault> {
        if is_comment(line) {
            return Ok(());
        }
        let Some((name, rest)) = line.split_once(':') else {
            return Err(RowFault::NoPart);
        };
        self.block = Block::None;
        self.take_named(alloc, name, rest.trim())
    }

    /// Takes the part of the row with this name; `rest` is what stands after the name in its line.
    fn take_named(&mut self, alloc: Global, name: &str, rest: &str) -> Result<(), RowFault> {
        match name {
            "script" => self.begin_script(rest)?,
            "script-word" => self.row.script = word(alloc, rest)?,
            "args" => self.row.args = split_list(alloc, rest.as_bytes())?,
            "limit" => self.row.limits = limits(number(rest.as_bytes())?)?,
            "acts" => self.block = Block::Acts,
            "end" => self.end = Some(split_list(alloc, rest.as_bytes())?),
            "out" => self.row.printed.out = Some(word(alloc, rest)?),
            "err" => self.row.printed.err = Some(word(alloc, rest)?),
            "status" => self.row.printed.status = Some(number(rest.as_bytes())?),
            "record" => self.row.record = Some(word(alloc, rest)?),
            _ => return Err(RowFault::NoPart),
        }
        Ok(())
    }

    /// Takes a script of one line, or begins one that stands in the lines that follow.
    fn begin_script(&mut self, line: &str) -> Result<(), RowFault> {
        if line.is_empty() {
            self.block = Block::Script;
        }
        self.row.script.extend_from_slice(line.as_bytes())?;
        Ok(())
    }

    /// Takes a line that belongs to a part of several lines.
    fn take_inner(&mut self, alloc: Global, number: usize, line: &str) -> Result<(), RowFault> {
        match self.block {
            Block::None => Err(RowFault::NoPart),
            Block::Script => {
                self.block = Block::Further;
                Ok(self.row.script.extend_from_slice(line.as_bytes())?)
            }
            Block::Further => {
                self.row.script.push(b'\n')?;
                Ok(self.row.script.extend_from_slice(line.as_bytes())?)
            }
            Block::Acts => self.take_act(alloc, number, line.trim()),
        }
    }

    /// Takes a line among the acts: an act, or something about the acts before it.
    fn take_act(&mut self, alloc: Global, number: usize, line: &str) -> Result<(), RowFault> {
        if is_comment(line) {
            return Ok(());
        }
        let words = split_list(alloc, line.as_bytes())?;
        match line_of(&words) {
            Line::Act => self.push_act(number, words),
            Line::Answer => self.put_answer(words),
            Line::Caught => self.put_caught(),
            Line::Again => self.take_again(&words),
        }
    }

    /// Adds an act after the others.
    fn push_act(&mut self, line: usize, act: Vec<Vec<u8>>) -> Result<(), RowFault> {
        self.acts.push(Asked {
            line,
            act,
            answer: None,
            is_caught: false,
        })?;
        Ok(())
    }

    /// Sets the answer to the last act.
    fn put_answer(&mut self, words: Vec<Vec<u8>>) -> Result<(), RowFault> {
        let Some(asked) = self.acts.last_mut() else {
            return Err(RowFault::NoActBefore);
        };
        asked.answer = Some(words);
        Ok(())
    }

    /// Records that the script catches an error of the last act.
    fn put_caught(&mut self) -> Result<(), RowFault> {
        let Some(asked) = self.acts.last_mut() else {
            return Err(RowFault::NoActBefore);
        };
        asked.is_caught = true;
        Ok(())
    }

    /// Takes `again N times the last M`: the last M acts come N times more, with their answers.
    fn take_again(&mut self, line: &[Vec<u8>]) -> Result<(), RowFault> {
        let (times, many) = repetition(line)?;
        let Some(first) = self.acts.len().checked_sub(many) else {
            return Err(RowFault::NoActBefore);
        };
        for _ in 0..times {
            self.copy_acts(first, many)?;
        }
        Ok(())
    }

    /// Copies `many` acts, from the one at the place `first` on, to the end of the acts.
    fn copy_acts(&mut self, first: usize, many: usize) -> Result<(), RowFault> {
        for place in first..first.saturating_add(many) {
            let Some(asked) = self.acts.get(place) else {
                return Err(RowFault::NoActBefore);
            };
            let asked = asked.clone()?;
            self.acts.push(asked)?;
        }
        Ok(())
    }

    /// Reads the acts and the end, now that all lines were taken. `line` is set to the number of
    /// the line of each act that is read, for faults.
    pub fn complete(&mut self, alloc: Global, line: &mut usize) -> Result<(), RowFault> {
        for asked in &self.acts {
            *line = asked.line;
            self.row.exchanges.push(asked.exchange(alloc)?)?;
        }
        if let Some(words) = &self.end {
            self.row.end = end_of(alloc, words, last_error(&self.row.exchanges))?;
        }
        Ok(())
    }

    /// The row that was read.
    pub fn into_row(self) -> Row {
        let Draft {
            row,
            block: _,
            acts: _,
            end: _,
        } = self;
        row
    }
}

impl Asked {
    /// The act and its answer.
    fn exchange(&self, alloc: Global) -> Result<Exchange, RowFault> {
        let act = act_of(alloc, &self.act)?;
        let answer = self.answer_to(alloc, &act)?;
        Ok(Exchange {
            act,
            answer,
            is_caught: self.is_caught,
        })
    }

    /// The answer to the act.
    fn answer_to(&self, alloc: Global, act: &Act<Global>) -> Result<Answer<Global>, RowFault> {
        match &self.answer {
            Some(words) => answer_of(alloc, words),
            None => usual_answer(act),
        }
    }
}

/// What a line of these words states. The word `caught` alone concerns the act before it.
fn line_of(words: &[Vec<u8>]) -> Line {
    if is_act(words) {
        return Line::Act;
    }
    match words {
        [word] if word.as_slice() == b"caught".as_slice() => Line::Caught,
        [word, ..] if word.as_slice() == b"again".as_slice() => Line::Again,
        _ => Line::Answer,
    }
}

/// The numbers of `again N times the last M`.
fn repetition(line: &[Vec<u8>]) -> Result<(u64, usize), RowFault> {
    match line {
        [_, times, _, _, _, many] => Ok((number(times)?, number(many)?)),
        _ => Err(RowFault::WordMissing),
    }
}

/// The text of the error that the last write to standard error reports.
fn last_error(exchanges: &[Exchange]) -> Option<&[u8]> {
    let mut text = None;
    for exchange in exchanges {
        if let Act::Err(bytes) = &exchange.act {
            text = bytes.strip_suffix(b"\n");
        }
    }
    text
}

/// The limit of this many ticks.
fn limits(ticks: u64) -> Result<Limits, RowFault> {
    match Limits::new(ticks) {
        Some(limits) => Ok(limits),
        None => Err(RowFault::NoLimit),
    }
}

/// The one word of a line.
fn word(alloc: Global, line: &str) -> Result<Vec<u8>, RowFault> {
    let mut words = split_list(alloc, line.as_bytes())?;
    let Some(word) = words.pop() else {
        return Err(RowFault::WordMissing);
    };
    if words.is_empty() {
        Ok(word)
    } else {
        Err(RowFault::WordTooMany)
    }
}

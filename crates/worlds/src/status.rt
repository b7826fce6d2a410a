//! How a call of the program ends: its status, and its line on standard error.

ghost use Rattle.std.specs.Prelude.{◌≡◌, ◌++◌};
ghost use Rattle.records.specs.Sink.{Takes};
ghost use Rattle.worlds.specs.declared.status.Outcome.TheVariants as outcome;
ghost use Rattle.worlds.specs.Status.{end_outcome, fault_outcome, file_outcome, line_of, reel_outcome, run_outcome, status_of, words_outcome};

use crate::input::Unread;
use acts::NoMemory;
use engine::End;
use records::{RecordFault, Sink, put_all, put_number};
use replays::Halt;
use std::alloc::Allocator;

/// The line that is written where the arguments are not those of a call.
const USAGE: &[u8] =
    b"usage: rx [-c cmds]... [--replay F] [--record G] [--limit N] [[-f] file [args]]\n";

/// How a call of the program ends.
#[derive(Clone, Copy, Debug)]
pub enum Outcome<'a> {
    /// The script ended with this number.
    Exit(i64),
    /// The script ended by an error, whose text it wrote itself.
    ScriptError,
    /// The arguments are not those of a call.
    Usage,
    /// The file of this name can't be read.
    CannotOpen(&'a [u8]),
    /// The run used all its ticks.
    Limit,
    /// A writer failed.
    OutputFailed,
    /// The answer of this number, counted from 1, does not fit its act.
    UnfitAnswer(u64),
    /// The world had no more answers.
    NoMoreAnswers,
    /// The act of this number, counted from 1, is not the wait that the record says.
    WaitDiffers(u64),
    /// The file of this name is not a record, because of its line of this number.
    BadRecord { name: &'a [u8], line: u64 },
    /// Memory was refused.
    NoMemory(NoMemory),
}

impl From<NoMemory> for Outcome<'_> {
    ghost from_gives = { λ refusal result. result ≡ outcome.NoMemory refusal };

    fn from(refusal: NoMemory) -> Self {
        Outcome::NoMemory(refusal)
    }
}

impl<'a> Outcome<'a> {
    /// How a run ended, or that memory was refused to it.
    pub fn of_run<A: Allocator>(ended: &Result<End<A>, NoMemory>) -> Outcome<'a>
        ensures { result ≡ run_outcome ended.now }
    {
        match ended {
            Ok(End::Exit(number)) => Outcome::Exit(*number),
            Ok(End::Error(_)) => Outcome::ScriptError,
            Ok(End::Limit) => Outcome::Limit,
            Ok(End::WriterFailed) => Outcome::OutputFailed,
            Ok(End::BadAnswer(number)) => Outcome::UnfitAnswer(*number),
            Ok(End::NoMore) => Outcome::NoMoreAnswers,
            Err(refusal) => Outcome::NoMemory(*refusal),
        }
    }

    /// Why the record of this name was not read; a missing header is its line 1.
    pub fn of_fault(name: &'a [u8], fault: RecordFault) -> Outcome<'a>
        ensures { result ≡ fault_outcome name.entry fault }
    {
        match fault {
            RecordFault::Header => Outcome::BadRecord { name, line: 1 },
            RecordFault::Line(line) => Outcome::BadRecord { name, line },
            RecordFault::NoMemory(refusal) => Outcome::NoMemory(refusal),
        }
    }

    /// How a run ended: by the fault of a writer, whatever else ended it, and else by the act that
    /// differed from its record.
    pub fn of_end<A: Allocator>(
        writer_failed: bool,
        differs: Option<u64>,
        ended: &Result<End<A>, NoMemory>,
    ) -> Outcome<'a>
        ensures { result ≡ end_outcome writer_failed differs ended.now }
    {
        if writer_failed {
            return Outcome::OutputFailed;
        }
        match differs {
            Some(number) => Outcome::WaitDiffers(number),
            None => Outcome::of_run(ended),
        }
    }

    /// How a run ended whose record, of this name, was read as it went on: by the fault of a
    /// writer, whatever else ended it, and else by why there were no more answers though entries
    /// were left.
    pub fn of_reel<A: Allocator>(
        writer_failed: bool,
        name: &'a [u8],
        halt: Option<Halt>,
        ended: &Result<End<A>, NoMemory>,
    ) -> Outcome<'a>
        ensures { result ≡ reel_outcome writer_failed name.entry halt ended.now }
    {
        match halt {
            Some(Halt::Differs(number)) => Outcome::of_end(writer_failed, Some(number), ended),
            Some(Halt::Unread) if !writer_failed => Outcome::CannotOpen(name),
            Some(Halt::NoMemory(refusal)) if !writer_failed => Outcome::NoMemory(refusal),
            _ => Outcome::of_end(writer_failed, None, ended),
        }
    }

    /// Why the file of this name was not read.
    pub fn of_file(name: &'a [u8], fault: Unread) -> Outcome<'a>
        ensures { result ≡ file_outcome name.entry fault }
    {
        match fault {
            Unread::Refused => Outcome::CannotOpen(name),
            Unread::NoMemory(refusal) => Outcome::NoMemory(refusal),
        }
    }

    /// Why the words of a call were not read.
    pub fn of_words(fault: Unread) -> Outcome<'a>
        ensures { result ≡ words_outcome fault }
    {
        match fault {
            Unread::Refused => Outcome::Usage,
            Unread::NoMemory(refusal) => Outcome::NoMemory(refusal),
        }
    }

    /// The status of the program.
    pub fn status(&self) -> u8
        ensures { result ≡ status_of self.now }
    {
        match self {
            Outcome::Exit(number) => number.rem_euclid(256) as u8,
            Outcome::ScriptError => 1,
            Outcome::Usage | Outcome::CannotOpen(_) => 2,
            Outcome::Limit => 3,
            Outcome::OutputFailed => 4,
            Outcome::UnfitAnswer(_) | Outcome::NoMoreAnswers => 5,
            Outcome::WaitDiffers(_) | Outcome::BadRecord { .. } => 5,
            Outcome::NoMemory(_) => 6,
        }
    }

    /// Writes the line of this end to standard error, where it has one.
    pub fn write_line<E: Sink>(&self, err: &mut E)
        ensures { Takes E.adds E.has_failed err.old (line_of self.now) err.new }
    {
        match self {
            Outcome::Exit(_) | Outcome::ScriptError => {}
            Outcome::Usage => put_all(err, USAGE),
            Outcome::CannotOpen(name) => put_parts(err, b"rx: cannot open ", name, b"\n"),
            Outcome::Limit => put_all(err, b"rx: command limit reached\n"),
            Outcome::OutputFailed => put_all(err, b"rx: output failed\n"),
            Outcome::UnfitAnswer(number) => {
                put_number(err, b"rx: answer ", *number, b" does not fit\n");
            }
            Outcome::NoMoreAnswers => put_all(err, b"rx: no more answers\n"),
            Outcome::WaitDiffers(number) => {
                put_number(err, b"rx: wait differs at answer ", *number, b"\n");
            }
            Outcome::BadRecord { name, line } => {
                put_parts(err, b"rx: bad record ", name, b" at line ");
                put_number(err, b"", *line, b"\n");
            }
            Outcome::NoMemory(_) => put_all(err, b"rx: no memory\n"),
        }
    }
}

/// Puts three texts into a sink, one after the other.
fn put_parts<S: Sink>(sink: &mut S, first: &[u8], second: &[u8], third: &[u8])
    ensures { Takes S.adds S.has_failed sink.old (first.now ++ second.now ++ third.now) sink.new }
{
    put_all(sink, first);
    put_all(sink, second);
    put_all(sink, third);
}

//! Acts, answers and ends that are read from the words of a line.

use crate::end::End;
use crate::fault::RowFault;
use crate::row::copies_in;
use crate::words::{Words, name_of, number};
use acts::{Act, Answer, LogMode, Row, Timer, fits};
use std::alloc::Global;
use tcltext::split_list;

/// Whether the words are those of an act; those of an answer begin with a small letter.
pub fn is_act(line: &[Vec<u8>]) -> bool {
    match line {
        [name, ..] => matches!(name.as_slice(), [b'A'..=b'Z', ..]),
        [] => false,
    }
}

/// The act that a line states.
pub fn act_of(alloc: Global, line: &[Vec<u8>]) -> Result<Act<Global>, RowFault> {
    let mut words = Words::new(line);
    let name = words.take_name()?;
    let act = named_act(alloc, name, &mut words)?;
    words.close(act)
}

/// The act that a name and the words after it state.
fn named_act(alloc: Global, name: &str, words: &mut Words<'_>) -> Result<Act<Global>, RowFault> {
    match name {
        "Out" => Ok(Act::Out(words.take_copy(alloc)?)),
        "Err" => Ok(Act::Err(words.take_copy(alloc)?)),
        "Log" => Ok(Act::Log(words.take_copy(alloc)?)),
        "Send" => Ok(Act::Send(words.take_id()?, words.take_copy(alloc)?)),
        "Spawn" => Ok(Act::Spawn(words.take_id()?, copies_in(alloc, words.take_rest())?)),
        "Connect" => connect_of(alloc, words),
        "OpenLog" => Ok(Act::OpenLog(words.take_copy(alloc)?, mode_of(words)?)),
        "Close" => Ok(Act::Close(words.take_id()?)),
        "Sleep" => Ok(Act::Sleep(words.take_number()?)),
        "CloseLog" => Ok(Act::CloseLog),
        "Reap" => Ok(Act::Reap(words.take_id()?)),
        "Wait" => wait_of(alloc, words.take_rest()),
        _ => Err(RowFault::NoAct),
    }
}

/// The act that connects to a server.
fn connect_of(alloc: Global, words: &mut Words<'_>) -> Result<Act<Global>, RowFault> {
    let id = words.take_id()?;
    let host = words.take_copy(alloc)?;
    let port = words.take_number()?;
    Ok(Act::Connect(id, host, port))
}

/// What becomes of the bytes that a log file already has, as the next word says.
pub fn mode_of(words: &mut Words<'_>) -> Result<LogMode, RowFault> {
    match words.take_name()? {
        "append" => Ok(LogMode::Append),
        "truncate" => Ok(LogMode::Truncate),
        _ => Err(RowFault::NoMode),
    }
}

/// The wait that the words of a line state: its rows, and the timer at the end.
fn wait_of(alloc: Global, line: &[Vec<u8>]) -> Result<Act<Global>, RowFault> {
    let (timer, places) = timer_of(line)?;
    let mut rows = Vec::new(alloc);
    for place in places {
        rows.push(row_of(alloc, place)?)?;
    }
    Ok(Act::Wait { rows, timer })
}

/// The timer at the end of a line, and the words before it.
fn timer_of(line: &[Vec<u8>]) -> Result<(Timer, &[Vec<u8>]), RowFault> {
    let Some((last, before)) = line.split_last() else {
        return Err(RowFault::NoTimer);
    };
    match name_of(last) {
        "Running" => Ok((Timer::Running, before)),
        "Endless" => Ok((Timer::Endless, before)),
        _ => match before.split_last() {
            Some((start, places)) if start.as_slice() == b"Start".as_slice() => {
                Ok((Timer::Start(number(last)?), places))
            }
            _ => Err(RowFault::NoTimer),
        },
    }
}

/// The row of a wait that a word states.
fn row_of(alloc: Global, place: &[u8]) -> Result<Row, RowFault> {
    let parts = split_list(alloc, place)?;
    row_in(&parts)
}

/// A row of a wait: an id, how many bytes its buffer holds, may hold and wants.
fn row_in(parts: &[Vec<u8>]) -> Result<Row, RowFault> {
    let mut words = Words::new(parts);
    let row = Row {
        id: words.take_id()?,
        held: words.take_number()?,
        max: words.take_number()?,
        want: words.take_number()?,
    };
    words.close(row)
}

/// The answer that a line states.
pub fn answer_of(alloc: Global, line: &[Vec<u8>]) -> Result<Answer<Global>, RowFault> {
    let mut words = Words::new(line);
    let name = words.take_name()?;
    let answer = named_answer(alloc, name, &mut words)?;
    words.close(answer)
}

/// The answer that a name and the words after it state.
fn named_answer(
    alloc: Global,
    name: &str,
    words: &mut Words<'_>,
) -> Result<Answer<Global>, RowFault> {
    match name {
        "done" => Ok(Answer::Done),
        "failed" => Ok(Answer::Failed(words.take_number()?)),
        "started" => Ok(Answer::Started(words.take_number()?)),
        "refused" => Ok(Answer::Refused),
        "exited" => Ok(Answer::Exited(status_of(words)?)),
        "arrive" => Ok(Answer::Arrive(words.take_id()?, words.take_copy(alloc)?)),
        "ended" => Ok(Answer::Ended(words.take_id()?)),
        "timeout" => Ok(Answer::TimedOut),
        "nomore" => Ok(Answer::NoMore),
        _ => Err(RowFault::NoAnswer),
    }
}

/// The status of a process that the next word spells, or `-` for one that a signal ended.
fn status_of(words: &mut Words<'_>) -> Result<Option<u8>, RowFault> {
    let word = words.take()?;
    if word == b"-".as_slice() {
        Ok(None)
    } else {
        Ok(Some(number(word)?))
    }
}

/// The answer to an act for which no answer is written: Done, where that fits.
pub fn usual_answer(act: &Act<Global>) -> Result<Answer<Global>, RowFault> {
    if fits(act, &Answer::<Global>::Done) {
        Ok(Answer::Done)
    } else {
        Err(RowFault::AnswerMissing)
    }
}

/// The end that a line states. Where the line has no text for an error, `written` is its text.
pub fn end_of(alloc: Global, line: &[Vec<u8>], written: Option<&[u8]>) -> Result<End, RowFault> {
    let mut words = Words::new(line);
    let name = words.take_name()?;
    let end = named_end(alloc, name, &mut words, written)?;
    words.close(end)
}

/// The end that a name and the words after it state.
fn named_end(
    alloc: Global,
    name: &str,
    words: &mut Words<'_>,
    written: Option<&[u8]>,
) -> Result<End, RowFault> {
    match name {
        "Exit" => Ok(End::Exit(words.take_number()?)),
        "Error" => error_of(alloc, words, written),
        "Limit" => Ok(End::Limit),
        "WriterFailed" => Ok(End::WriterFailed),
        "BadAnswer" => Ok(End::BadAnswer(words.take_number()?)),
        "NoMore" => Ok(End::NoMore),
        _ => Err(RowFault::NoEnd),
    }
}

/// The end by an error, whose text is the next word, or `written` where there is none.
fn error_of(alloc: Global, words: &mut Words<'_>, written: Option<&[u8]>) -> Result<End, RowFault> {
    if !words.is_empty() {
        return Ok(End::Error(words.take_copy(alloc)?));
    }
    match written {
        Some(text) => Ok(End::Error(Vec::from_slice(alloc, text)?)),
        None => Err(RowFault::NoErrorText),
    }
}

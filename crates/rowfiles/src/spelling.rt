//! Acts, answers and ends as lines of words.

use crate::end::End;
use acts::{Act, Answer, Id, LogMode, Row, Timer};
use std::alloc::{AllocError, Allocator};

/// From how many equal bytes on a run of them is written as `<<N BYTE>>`.
const LONG_RUN: u64 = 12;

/// Writes an act, as `Spawn exp4 cat -u` or `Wait {exp4 0 2000 2000} Start 10`.
pub fn push_act<A: Allocator>(line: &mut String, act: &Act<A>) -> Result<(), AllocError> {
    match act {
        Act::Out(bytes) => push_named(line, "Out", bytes),
        Act::Err(bytes) => push_named(line, "Err", bytes),
        Act::Log(bytes) => push_named(line, "Log", bytes),
        Act::Send(id, bytes) => {
            push_id(line, "Send ", *id)?;
            push_word(line, bytes)
        }
        Act::Spawn(id, words) => {
            push_id(line, "Spawn ", *id)?;
            push_words(line, words)
        }
        Act::Connect(id, host, port) => {
            push_id(line, "Connect ", *id)?;
            push_word(line, host)?;
            write!(line, " {port}")
        }
        Act::OpenLog(name, LogMode::Append) => {
            push_named(line, "OpenLog", name)?;
            line.push_str(" append")
        }
        Act::OpenLog(name, LogMode::Truncate) => {
            push_named(line, "OpenLog", name)?;
            line.push_str(" truncate")
        }
        Act::Close(id) => push_id(line, "Close ", *id),
        Act::Sleep(seconds) => write!(line, "Sleep {seconds}"),
        Act::CloseLog => line.push_str("CloseLog"),
        Act::Reap(id) => push_id(line, "Reap ", *id),
        Act::Wait { rows, timer } => push_wait(line, rows, *timer),
    }
}

/// Writes an answer, as `started 100` or `arrive exp4 hi`.
pub fn push_answer<A: Allocator>(line: &mut String, answer: &Answer<A>) -> Result<(), AllocError> {
    match answer {
        Answer::Done => line.push_str("done"),
        Answer::Failed(sent) => write!(line, "failed {sent}"),
        Answer::Started(process) => write!(line, "started {process}"),
        Answer::Refused => line.push_str("refused"),
        Answer::Exited(Some(status)) => write!(line, "exited {status}"),
        Answer::Exited(None) => line.push_str("exited -"),
        Answer::Arrive(id, bytes) => {
            push_id(line, "arrive ", *id)?;
            push_word(line, bytes)
        }
        Answer::Ended(id) => push_id(line, "ended ", *id),
        Answer::TimedOut => line.push_str("timeout"),
        Answer::NoMore => line.push_str("nomore"),
    }
}

/// Writes an end, as `Exit 0`.
pub fn push_end(line: &mut String, end: &End) -> Result<(), AllocError> {
    match end {
        End::Exit(number) => write!(line, "Exit {number}"),
        End::Error(error) => push_named(line, "Error", error),
        End::Limit => line.push_str("Limit"),
        End::WriterFailed => line.push_str("WriterFailed"),
        End::BadAnswer(number) => write!(line, "BadAnswer {number}"),
        End::NoMore => line.push_str("NoMore"),
    }
}

/// Writes a name and then an id.
fn push_id(line: &mut String, name: &str, id: Id) -> Result<(), AllocError> {
    let number = id.0;
    write!(line, "{name}exp{number}")
}

fn push_named(line: &mut String, name: &str, bytes: &[u8]) -> Result<(), AllocError> {
    line.push_str(name)?;
    push_word(line, bytes)
}

fn push_words<A: Allocator>(line: &mut String, words: &[Vec<u8, A>]) -> Result<(), AllocError> {
    for word in words {
        push_word(line, word)?;
    }
    Ok(())
}

fn push_wait(line: &mut String, rows: &[Row], timer: Timer) -> Result<(), AllocError> {
    line.push_str("Wait")?;
    for row in rows {
        let Row {
            id,
            held,
            max,
            want,
        } = *row;
        push_id(line, " {", id)?;
        write!(line, " {held} {max} {want}}}")?;
    }
    match timer {
        Timer::Start(seconds) => write!(line, " Start {seconds}"),
        Timer::Running => line.push_str(" Running"),
        Timer::Endless => line.push_str(" Endless"),
    }
}

/// Writes a blank and a word: bare where it is short, not empty and of plain bytes alone, else in
/// quotes.
pub fn push_word(line: &mut String, bytes: &[u8]) -> Result<(), AllocError> {
    line.push_str(" ")?;
    if !bytes.is_empty() && bytes.len() < 12 && bytes.iter().all(|byte| is_plain(*byte)) {
        return push_bytes(line, bytes);
    }
    line.push_str("\"")?;
    push_bytes(line, bytes)?;
    line.push_str("\"")
}

/// Whether a byte stands for itself wherever it stands.
fn is_plain(byte: u8) -> bool {
    matches!(byte, b'!' | b'#'..=b';' | b'=' | b'?'..=b'Z' | b'^'..=b'z' | b'|' | b'~')
}

/// Writes bytes with escapes, and a long run of one byte by its length.
fn push_bytes(line: &mut String, bytes: &[u8]) -> Result<(), AllocError> {
    let mut run = 0u64;
    let mut last = 0u8;
    for byte in bytes {
        if *byte != last {
            push_run(line, last, run)?;
            last = *byte;
            run = 0;
        }
        run = run.saturating_add(1);
    }
    push_run(line, last, run)
}

fn push_run(line: &mut String, byte: u8, times: u64) -> Result<(), AllocError> {
    if LONG_RUN <= times {
        write!(line, "<<{times} ")?;
        push_byte(line, byte)?;
        return line.push_str(">>");
    }
    for _ in 0..times {
        push_byte(line, byte)?;
    }
    Ok(())
}

fn push_byte(line: &mut String, byte: u8) -> Result<(), AllocError> {
    match byte {
        b'\n' => line.push_str("\\n"),
        b' ' => line.push_str(" "),
        b'{' | b'}' | b'[' | b']' => line.push(byte as char),
        _ if is_plain(byte) => line.push(byte as char),
        b'"' | b'\\' | b'<' | b'>' => {
            line.push('\\')?;
            line.push(byte as char)
        }
        _ => write!(line, "\\x{byte:02x}"),
    }
}

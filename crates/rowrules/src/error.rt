//! The errors that acts which were refused or have failed give the script.

use acts::{Act, Answer, Id};
use std::alloc::{AllocError, Global};

/// Writes the text of the error that an act with this answer gives the script.
pub fn push_error(
    text: &mut Vec<u8>,
    act: &Act<Global>,
    answer: &Answer<Global>,
) -> Result<(), AllocError> {
    match act {
        Act::Spawn(_, words) => push_quoted(text, "couldn't execute", first(words)),
        Act::Connect(_, host, port) => push_server(text, host, *port),
        Act::OpenLog(name, _) => push_quoted(text, "couldn't open log file", name),
        Act::Send(id, _) => push_failed(text, *id, answer),
        _ => Ok(()),
    }
}

/// The first word of a command.
fn first(words: &[Vec<u8>]) -> &[u8] {
    match words {
        [program, ..] => program.as_slice(),
        [] => &[],
    }
}

fn push_quoted(text: &mut Vec<u8>, what: &str, name: &[u8]) -> Result<(), AllocError> {
    text.extend_from_slice(what.as_bytes())?;
    text.extend_from_slice(b" \"")?;
    text.extend_from_slice(name)?;
    text.extend_from_slice(b"\"")
}

fn push_server(text: &mut Vec<u8>, host: &[u8], port: u16) -> Result<(), AllocError> {
    text.extend_from_slice(b"couldn't connect to ")?;
    text.extend_from_slice(host)?;
    let port = format!(in *text.allocator(); ":{port}")?;
    text.extend_from_slice(port.as_bytes())
}

fn push_failed(text: &mut Vec<u8>, id: Id, answer: &Answer<Global>) -> Result<(), AllocError> {
    let number = id.0;
    if let Answer::Failed(sent) = answer {
        let line = format!(in *text.allocator(); "send to exp{number} failed after {sent} bytes")?;
        text.extend_from_slice(line.as_bytes())?;
    }
    Ok(())
}

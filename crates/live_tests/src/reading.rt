//! Calls that are read from the words of a field.

use crate::call::Listed;
use live::Look;
use rowfiles::spelled::mode_of;
use rowfiles::{RowFault, Words};
use std::io::ErrorKind;
use std::time::Duration;

/// The call that a field names, with its answer.
pub fn call_of(field: &[Vec<u8>]) -> Result<Listed<'_>, RowFault> {
    let mut words = Words::new(field);
    let name = words.take_name()?;
    let call = named_call(name, &mut words)?;
    words.close(call)
}

/// The call that a name and the words after it state.
fn named_call<'a>(name: &str, words: &mut Words<'a>) -> Result<Listed<'a>, RowFault> {
    match name {
        "command" => Ok(Listed::Command(words.take()?)),
        "arg" => Ok(Listed::Arg(words.take()?)),
        "pipes" => Ok(Listed::Pipes(words.take_id()?)),
        "start" => Ok(Listed::Start(words.take_id()?, words.take_number()?)),
        "connect" => connect_of(words),
        "openlog" => Ok(Listed::OpenLog(words.take()?, mode_of(words)?)),
        "sleep" => Ok(Listed::Sleep(words.take_number()?)),
        "now" => Ok(Listed::Now(Duration::from_millis(words.take_number()?))),
        "pause" => Ok(Listed::Pause(time_of(words)?)),
        "refused" => Ok(Listed::Refused(kind_of(words)?)),
        _ => link_call(name, words),
    }
}

/// A call on the link of an id, or on its program.
fn link_call<'a>(name: &str, words: &mut Words<'a>) -> Result<Listed<'a>, RowFault> {
    let id = words.take_id()?;
    match name {
        "read" => Ok(Listed::Read(id, words.take()?)),
        "unread" => Ok(Listed::Unread(id, kind_of(words)?)),
        "write" => Ok(Listed::Write(id, words.take()?)),
        "unwritten" => Ok(Listed::Unwritten(id, kind_of(words)?)),
        "watch" => Ok(Listed::Watch(id)),
        "await" => Ok(Listed::Await(id)),
        "peek" => Ok(Listed::Peek(id, found_of(words)?)),
        "soon" => Ok(Listed::Soon(id, words.take()? == b"yes".as_slice())),
        "exit" => Ok(Listed::Wait(id, Some(words.take_number()?))),
        "signal" => Ok(Listed::Wait(id, None)),
        _ => Err(RowFault::NoAct),
    }
}

/// The call of a port of a host.
fn connect_of<'a>(words: &mut Words<'a>) -> Result<Listed<'a>, RowFault> {
    let id = words.take_id()?;
    let host = words.take()?;
    Ok(Listed::Connect(id, host, words.take_number()?))
}

/// How long a pause lasts, in milliseconds; without a number it has no end.
fn time_of(words: &mut Words<'_>) -> Result<Option<Duration>, RowFault> {
    if words.is_empty() {
        return Ok(None);
    }
    Ok(Some(Duration::from_millis(words.take_number()?)))
}

/// What a read would find, as the next word says.
fn found_of(words: &mut Words<'_>) -> Result<Look, RowFault> {
    match words.take_name()? {
        "bytes" => Ok(Look::Bytes(1)),
        "silence" => Ok(Look::Silence),
        "end" => Ok(Look::End),
        _ => Err(RowFault::NoAnswer),
    }
}

/// Why a call fails: the next word, which is the name of the error (errno(3)).
fn kind_of(words: &mut Words<'_>) -> Result<ErrorKind, RowFault> {
    match words.take_name()? {
        "EINTR" => Ok(ErrorKind::Interrupted),
        "EAGAIN" => Ok(ErrorKind::WouldBlock),
        "ENOMEM" => Ok(ErrorKind::OutOfMemory),
        "ENOENT" => Ok(ErrorKind::NotFound),
        "EACCES" => Ok(ErrorKind::PermissionDenied),
        "ECONNREFUSED" => Ok(ErrorKind::ConnectionRefused),
        "ECONNRESET" => Ok(ErrorKind::ConnectionReset),
        "EPIPE" => Ok(ErrorKind::BrokenPipe),
        _ => Err(RowFault::NoAnswer),
    }
}

//! The calls that a list names, with their answers.

use acts::{Id, LogMode};
use live::Look;
use std::io::ErrorKind;
use std::time::Duration;

/// A call of the system that is to come next, and its answer.
#[derive(Clone, Copy)]
pub enum Listed<'a> {
    /// A command is made, gets an argument, and the pipes of an id.
    Command(&'a [u8]),
    Arg(&'a [u8]),
    Pipes(Id),
    /// The program of an id is started as the process of this number, or has ended.
    Start(Id, u64),
    Wait(Id, Option<i32>),
    /// A port of a host is called, or a log file opened.
    Connect(Id, &'a [u8], u16),
    OpenLog(&'a [u8], LogMode),
    /// A read gives these bytes, or an error.
    Read(Id, &'a [u8]),
    Unread(Id, ErrorKind),
    /// A write takes these bytes, or is refused.
    Write(Id, &'a [u8]),
    Unwritten(Id, ErrorKind),
    /// So long after the start the clock is asked.
    Now(Duration),
    Pause(Option<Duration>),
    Sleep(u64),
    /// The poll is told of a link, waits until something can be written to it, tells what a read
    /// would find, and whether a write would go on soon.
    Watch(Id),
    Await(Id),
    Peek(Id, Look),
    Soon(Id, bool),
    /// Any call but a read or a write is refused.
    Refused(ErrorKind),
}

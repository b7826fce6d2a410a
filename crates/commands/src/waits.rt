//! The states of commands that wait for the answer to an act.

use output::{channel, log_file, send};
use processes::{close, sleep, socket, spawn, wait};
use std::alloc::Allocator;

/// The state of a command that waits for the answer to an act, for each command that asks for acts.
#[derive(Drop)]
pub enum Waits<A: Allocator> {
    Write(channel::Waits),
    Spawn(spawn::Waits<A>),
    Send(send::Waits),
    Sleep(sleep::Waits),
    Socket(socket::Waits),
    Close(close::Waits),
    Wait(wait::Waits),
    LogFile(log_file::Waits<A>),
}

//! Reading from a link, which never waits.

ghost use Rattle.std.specs.Prelude.{◌≡◌, length};
ghost use Rattle.live.specs.Look.{IsWithin, Looks};

use crate::calls::System;
use crate::system::MOST_TRIES;
use std::io::ErrorKind;

/// What one read finds.
#[derive(Clone, Copy, Debug, PartialEq, Eq)]
pub enum Look {
    /// This many bytes, at the start of the room.
    Bytes(usize),
    /// Nothing yet.
    Silence,
    /// The other side has closed, or the connection is broken.
    End,
}

/// Reads once, to the start of the room. A room without bytes finds silence. A read that was
/// interrupted is tried again.
pub fn read_once<S: System>(system: &mut S, link: &mut S::Link, room: &mut [u8]) -> Look
    ensures within { IsWithin result (length room.new) }
    ensures owner { S.Link.owner link.new ≡ S.Link.owner link.old }
    ensures looks { Looks S.step (S.Link.owner link.old) system.old result room.new system.new }
{
    if room.is_empty() {
        return Look::Silence;
    }
    'tries: for _tried in 0..MOST_TRIES {
        match system.read(link, room) {
            Ok(0) => return Look::End,
            Ok(count) => return Look::Bytes(count),
            Err(error) => match error.kind() {
                ErrorKind::Interrupted => {}
                ErrorKind::WouldBlock => return Look::Silence,
                _ => return Look::End,
            },
        }
    }
    Look::Silence
}

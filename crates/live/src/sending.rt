//! Sending to programs and servers that may answer meanwhile.

ghost use Rattle.std.specs.Prelude.{◌≡◌, [], true};
ghost use Rattle.std.specs.Io.{WritesAtMost};
ghost use Rattle.acts.specs.Deed.{reply_of};
ghost use Rattle.acts.specs.Fits as table;
ghost use Rattle.live.specs.Calls.{took};
ghost use Rattle.live.specs.Early.{Exchanged, Idles, IfAnswered, UnlessMemory};
ghost use Rattle.live.specs.Kept.{Traded, ids_of, kept_of, only};
ghost use Rattle.live.specs.Live.{IsWhy};
ghost use Rattle.live.specs.Outputs.{went_out};

use crate::calls::System;
use crate::link::Look;
use crate::outputs::failed;
use crate::peers::{Peer, Peers, keep, place_of};
use crate::system::MOST_TRIES;
use acts::{Answer, Id};
use std::alloc::Global;
use std::io::{self, ErrorKind};

/// Sends a text to an id, and says how many bytes went out where the peer has gone or is not open.
/// The answer is that there are no more answers where memory was refused.
pub fn send<S: System>(
    system: &mut S,
    peers: &mut Peers<S::Link>,
    id: Id,
    text: &[u8],
    why: &mut Option<io::Error>,
) -> Answer<Global>
    ensures fits { table.fits_write text.now (reply_of result) ≡ true }
    ensures why { IsWhy (reply_of result) why.old why.new }
    ensures deadline { peers.new.deadline ≡ peers.old.deadline }
    ensures last { peers.new.last ≡ peers.old.last }
    ensures ids { ids_of S.Link.owner peers.new.list.items
        ≡ ids_of S.Link.owner peers.old.list.items }
    ensures traded { IfAnswered (reply_of result) (Traded S.step system.old
        (kept_of S.Link.owner peers.old.list.items) (only id (went_out text.now (reply_of result)))
        (λ _. []) (kept_of S.Link.owner peers.new.list.items) system.new) }
{
    match place_of(&peers.list, id) {
        Some(place) => send_to(system, &mut peers.list[place], &mut peers.room, text, why),
        None => Answer::Failed(0),
    }
}

/// Sends a text. While the peer takes nothing, what comes from it is kept, so that a program that
/// waits for its output to be read goes on as well.
fn send_to<S: System>(
    system: &mut S,
    peer: &mut Peer<S::Link>,
    room: &mut [u8],
    text: &[u8],
    why: &mut Option<io::Error>,
) -> Answer<Global>
    ensures fits { table.fits_write text.now (reply_of result) ≡ true }
    ensures why { IsWhy (reply_of result) why.old why.new }
    ensures owner { S.Link.owner peer.new.link ≡ S.Link.owner peer.old.link }
    ensures exchanged { IfAnswered (reply_of result)
        (Exchanged S.step (S.Link.owner peer.old.link) system.old peer.old.early.items
        (went_out text.now (reply_of result)) [] peer.new.early.items system.new) }
{
    let mut rest = text;
    'text: for _ in 0..MOST_TRIES {
        if rest.is_empty() {
            return Answer::Done;
        }
        match send_some(system, peer, room, text.len(), rest) {
            Ok(count) => rest = &rest[count..],
            Err(error) => {
                *why = Some(error);
                return match error.kind() {
                    ErrorKind::OutOfMemory => Answer::NoMore,
                    _ => failed(text, rest),
                };
            }
        }
    }
    failed(text, rest)
}

/// Sends some bytes from the front of the rest of a text of this size, and says how many; none
/// where the peer took none and what came from it was kept, or where the system's wait ended.
fn send_some<S: System>(
    system: &mut S,
    peer: &mut Peer<S::Link>,
    room: &mut [u8],
    size: usize,
    rest: &[u8],
) -> io::Result<usize>
    ensures within { WritesAtMost result rest.now }
    ensures owner { S.Link.owner peer.new.link ≡ S.Link.owner peer.old.link }
    ensures exchanged { UnlessMemory result
        (Exchanged S.step (S.Link.owner peer.old.link) system.old peer.old.early.items
        (took result rest.now) [] peer.new.early.items system.new) }
{
    match system.write(&mut peer.link, rest) {
        Ok(0) => Err(io::Error::from(ErrorKind::WriteZero)),
        Ok(count) => Ok(count),
        Err(error) => match error.kind() {
            ErrorKind::Interrupted => Ok(0),
            ErrorKind::WouldBlock => match hear(system, peer, room, size) {
                Ok(()) => Ok(0),
                Err(unheard) => Err(unheard),
            },
            _ => Err(error),
        },
    }
}

/// Listens to a program or a server that takes nothing now: keeps what has come from it, and where
/// nothing has, waits until something comes or something is taken.
fn hear<S: System>(
    system: &mut S,
    peer: &mut Peer<S::Link>,
    room: &mut [u8],
    size: usize,
) -> io::Result<()>
    ensures owner { S.Link.owner peer.new.link ≡ S.Link.owner peer.old.link }
    ensures exchanged { UnlessMemory result
        (Exchanged S.step (S.Link.owner peer.old.link) system.old peer.old.early.items
        [] [] peer.new.early.items system.new) }
{
    let found = keep(system, peer, room, size)?;
    stay(system, &peer.link, found, peer.is_full(size))
}

/// Waits where nothing came, until something comes or something is taken. It fails where more has
/// come than is kept and nothing is taken within a second: the other side is held by its output
/// that is not read, and may never take anything.
fn stay<S: System>(system: &mut S, link: &S::Link, found: Look, is_full: bool) -> io::Result<()>
    ensures { Idles S.step system.old system.new }
{
    match found {
        Look::Bytes(_) => Ok(()),
        Look::Silence if is_full => match system.peek(link)? {
            Look::Bytes(_) => held(system, link),
            unseen => system.pause_to_write(link, unseen),
        },
        Look::Silence | Look::End => system.pause_to_write(link, found),
    }
}

/// Waits for a second until something is taken, and fails where nothing is.
fn held<S: System>(system: &mut S, link: &S::Link) -> io::Result<()>
    ensures { Idles S.step system.old system.new }
{
    if system.takes_soon(link)? {
        Ok(())
    } else {
        Err(io::Error::from(ErrorKind::WriteZero))
    }
}

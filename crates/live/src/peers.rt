//! The programs and servers that are open, under their ids.

ghost use Rattle.std.specs.Prelude.{◌≡◌, [], ◌+◌, ◌++◌, ◌<◌, ◌≤◌, length, max, min, take, ◌==◌, filter, not, position, vec_len, IfOk, OnOk};
ghost use Rattle.std.specs.Vec.{vec_capacity};
ghost use Rattle.std.specs.Io.{StartsWith};
ghost use Rattle.live.specs.Early.{Exchanged, HandsOn, LooksEarly, LooksInto, UnlessMemory, early_room, most_early};
ghost use Rattle.live.specs.Kept.{ArePast, ids_of};
ghost use Rattle.live.specs.Look.{IsWithin};
ghost use Rattle.live.specs.declared.link.Look.TheVariants.{Silence};

use crate::calls::{Owned, System};
use crate::link::{Look, read_once};
use acts::Id;
use std::alloc::{AllocError, Global};
use std::collections::VecDeque;
use std::io::{self, BufRead, Write};
use std::time::Instant;

/// The most bytes that are kept of what comes from an id while it is sent an empty text.
const LEAST_EARLY: usize = 1_000_000;

/// How many more bytes are kept for each byte of the text that is sent.
const EARLY_FOR_EACH: usize = 2;

/// The most bytes that one read takes: as many as a pipe holds.
const MOST_READ: usize = 65_536;

/// A program or a server that is open.
pub struct Peer<L> {
    pub link: L,
    /// Bytes that came while something was sent and were not handed on yet.
    early: VecDeque<u8>,
}

impl<L: Drop> Drop for Peer<L> {
    fn drop(self) {
        let Peer { link: _, early: _ } = self;
    }
}

/// Looks once for bytes from a peer, and puts them at the start of the room: bytes that were kept
/// come first.
pub fn look_early<S: System>(system: &mut S, peer: &mut Peer<S::Link>, room: &mut [u8]) -> Look
    ensures within { IsWithin result (length room.new) }
    ensures early { HandsOn peer.old.early.items peer.new.early.items result room.new }
    ensures owner { S.Link.owner peer.new.link ≡ S.Link.owner peer.old.link }
    ensures looks { LooksEarly S.step (S.Link.owner peer.old.link) peer.old.early.items
        system.old result room.new system.new }
    ensures silence { result ≡ Silence → 0 < length room.new → peer.new.early.items ≡ [] }
{
    if peer.early.is_empty() {
        return read_once(system, &mut peer.link, room);
    }
    match take_early(&mut peer.early, room) {
        0 => Look::Silence,
        count => Look::Bytes(count),
    }
}

/// Moves bytes that were kept to the start of the room, and says how many: as many as there is
/// room for, of those that lie in one row.
fn take_early(early: &mut VecDeque<u8>, room: &mut [u8]) -> usize
    ensures within { result ≤ length room.new }
    ensures some { 0 < length room.new → 0 < length early.old.items → 0 < result }
    ensures front { early.old.items ≡ take result room.new ++ early.new.items }
{
    let (front, _) = early.as_slices();
    let count = front.len().min(room.len());
    room[..count].copy_from_slice(&front[..count]);
    early.consume(count);
    count
}

/// Keeps bytes that have already come from a peer while a text of this size is sent, up to a
/// bound, and says what it found; it finds silence, too, where there is no room for more bytes. The
/// room is made before anything is read, so that no bytes are lost where memory is refused.
pub fn keep<S: System>(
    system: &mut S,
    peer: &mut Peer<S::Link>,
    room: &mut [u8],
    size: usize,
) -> io::Result<Look>
    ensures bound { length peer.new.early.items
        ≤ max (length peer.old.early.items) (most_early size) }
    ensures all { StartsWith peer.new.early.items peer.old.early.items }
    ensures owner { S.Link.owner peer.new.link ≡ S.Link.owner peer.old.link }
    ensures reads { UnlessMemory result (Exchanged S.step (S.Link.owner peer.old.link) system.old
        peer.old.early.items [] [] peer.new.early.items system.new) }
    ensures looks { IfOk result (λ found. LooksInto S.step (S.Link.owner peer.old.link)
        (min (early_room size peer.old.early.items) (length room.old))
        system.old found system.new) }
{
    let most = room_left(&peer.early, size).min(room.len());
    let room = &mut room[..most];
    peer.early.reserve(most)?;
    let found = read_once(system, &mut peer.link, room);
    if let Look::Bytes(count) = found {
        peer.early.write(&room[..count])?;
    }
    Ok(found)
}

impl<L> Peer<L> {
    /// A link from which nothing has come yet.
    pub fn new(alloc: Global, link: L) -> Peer<L>
        ensures link { result.link ≡ link }
        ensures early { result.early.items ≡ [] }
    {
        Peer {
            link,
            early: VecDeque::new(alloc),
        }
    }

    /// Whether no more bytes are kept while a text of this size is sent.
    pub fn is_full(&self, size: usize) -> bool
        ensures { result ≡ (early_room size self.now.early.items == 0) }
    {
        room_left(&self.early, size) == 0
    }
}

/// How many more bytes may be kept beside these while a text of this size is sent.
fn room_left(early: &VecDeque<u8>, size: usize) -> usize
    ensures { result ≡ early_room size early.now.items }
{
    LEAST_EARLY
        .saturating_add(size.saturating_mul(EARLY_FOR_EACH))
        .saturating_sub(early.len())
}

/// All that is open, and what waiting for it needs.
pub struct Peers<L> {
    pub alloc: Global,
    pub list: Vec<Peer<L>>,
    /// The id that a wait was answered for last.
    pub last: Option<Id>,
    /// When the timer runs out.
    pub deadline: Option<Instant>,
    /// Where reads put their bytes. It is made with the first link.
    pub room: Vec<u8>,
}

impl<L: Drop> Drop for Peers<L> {
    fn drop(self) {
        let Peers {
            alloc: _,
            list: _,
            last: _,
            deadline: _,
            room: _,
        } = self;
    }
}

impl<L: Owned + Drop> Peers<L> {
    /// A list in which nothing is open.
    pub fn new(alloc: Global) -> Peers<L>
        ensures { result.list.items ≡ [] }
    {
        Peers {
            alloc,
            list: Vec::new(alloc),
            last: None,
            deadline: None,
            room: Vec::new(alloc),
        }
    }

    /// Makes room for one more link, and with the first one that for reads, so that a run which
    /// opens nothing does without.
    pub fn reserve(&mut self) -> Result<(), AllocError>
        ensures items { self.new.list.items ≡ self.old.list.items }
        ensures deadline { self.new.deadline ≡ self.old.deadline }
        ensures last { self.new.last ≡ self.old.last }
        ensures ok { OnOk result (vec_len self.new.list + 1 ≤ vec_capacity self.new.list) }
    {
        if self.room.is_empty() {
            self.room.resize(MOST_READ, 0)?;
        }
        self.list.reserve(1)
    }

    /// Closes the link of an id, where one is open.
    pub fn close(&mut self, id: Id)
        ensures deadline { self.new.deadline ≡ self.old.deadline }
        ensures last { self.new.last ≡ self.old.last }
        ensures others { self.new.list.items
            ≡ filter (λ peer. not ((L.owner peer.link).0 == id.0)) self.old.list.items }
    {
        self.list.retain(|peer| peer.link.id() != id);
    }
}

/// How far a list of links was gone through.
#[derive(Drop)]
pub struct Passed {
    place: usize,
    /// The ids of the links before the place are lesser than this number.
    number: u64,
}

impl Passed {
    /// None of the links.
    pub fn none() -> Passed
        ensures { result.place ≡ 0 }
    {
        Passed {
            place: 0,
            number: 0,
        }
    }
}

/// The place of the link of an id, which is looked for from where the list was left. So the list is
/// gone through once for many ids, where they rise and those of the list do.
pub fn place_from<L: Owned>(list: &[Peer<L>], id: Id, passed: &mut Passed) -> Option<usize>
    requires { ArePast (ids_of L.owner list.now) passed.old.place passed.old.number }
    ensures place { result ≡ position (λ peer. (L.owner peer.link).0 == id.0) list.now }
    ensures passed { ArePast (ids_of L.owner list.now) passed.new.place passed.new.number }
{
    let from = if passed.number <= id.0 {
        passed.place
    } else {
        0
    };
    let place = pass(list, id, from);
    passed.place = place;
    passed.number = id.0;
    if place < list.len() && list[place].link.id() == id {
        return Some(place);
    }
    place_of(list, id)
}

/// The place behind the links from a place on whose ids are lesser.
fn pass<L: Owned>(list: &[Peer<L>], id: Id, from: usize) -> usize
    requires { ArePast (ids_of L.owner list.now) from id.0 }
    ensures { ArePast (ids_of L.owner list.now) result id.0 }
{
    let mut place = from;
    while place < list.len() && list[place].link.id().0 < id.0 {
        place += 1;
    }
    place
}

/// The place of the link of an id.
pub fn place_of<L: Owned>(list: &[Peer<L>], id: Id) -> Option<usize>
    ensures { result ≡ position (λ peer. (L.owner peer.link).0 == id.0) list.now }
{
    list.iter().position(|peer| peer.link.id() == id)
}

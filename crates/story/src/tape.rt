//! What was heard of one id.

ghost use Rattle.std.specs.Prelude.{◌≡◌, ◌+◌, ◌-◌, ◌≤◌, ◌++◌, drop, length, min, vec_len, OnOk};

use crate::cause::Cause;
use crate::track::Track;
use acts::Id;
use memory::NoMemory;
use patterns::Found;
use std::alloc::Allocator;

/// How many bytes a stretch counts as.
const STRETCH_WEIGHT: usize = 16;

/// What became of bytes that a buffer no longer holds.
#[derive(Clone, Copy, Debug, PartialEq, Eq)]
pub(crate) enum Fate {
    /// This command consumed them.
    Consumed(Cause),
    /// They were forgotten, since the buffer may hold no more (expect(1), match_max).
    Forgotten,
}

/// What was heard of one id: its last bytes, and what happened to them.
#[derive(Drop)]
pub(crate) struct Tape<A: Allocator> {
    id: Id,
    /// How many bytes came before those that are kept.
    dropped: u64,
    /// The bytes that are kept.
    bytes: Vec<u8, A>,
    /// Where those begin that were neither consumed nor forgotten.
    begin: usize,
    /// During which commands the bytes came.
    arrivals: Track<Cause, A>,
    /// What became of the bytes before `begin`.
    fates: Track<Fate, A>,
    ghost inside: { begin ≤ vec_len bytes },
}

impl<A: Allocator + Copy> Tape<A> {
    /// The tape of an id from which nothing came.
    pub(crate) fn new(alloc: A, id: Id) -> Tape<A> {
        Tape {
            id,
            dropped: 0,
            bytes: Vec::new(alloc),
            begin: 0,
            arrivals: Track::new(alloc),
            fates: Track::new(alloc),
        }
    }
}

impl<A: Allocator> Tape<A> {
    /// Whose tape it is.
    pub(crate) fn id(&self) -> Id {
        self.id
    }

    /// How many bytes came before those that are kept.
    pub(crate) fn dropped(&self) -> u64 {
        self.dropped
    }

    /// How many bytes ever came.
    pub(crate) fn came(&self) -> u64 {
        self.place(self.bytes.len())
    }

    /// The bytes that are kept.
    pub(crate) fn bytes(&self) -> &[u8]
        ensures kept { result.now ≡ self.now.bytes.items }
        ensures len { length result.now ≡ vec_len self.now.bytes }
    {
        &self.bytes
    }

    /// The bytes that are kept, and neither consumed nor forgotten.
    pub(crate) fn window(&self) -> &[u8]
        ensures { result.now ≡ drop self.now.begin self.now.bytes.items }
    {
        &self.bytes[self.begin..]
    }

    /// How many bytes the buffer holds, of those that are kept.
    fn held(&self) -> usize
        ensures { result + self.now.begin ≡ vec_len self.now.bytes }
    {
        self.bytes.len() - self.begin
    }

    /// How much the tape counts in the history.
    pub(crate) fn weight(&self) -> usize {
        let stretches = self.arrivals.len().saturating_add(self.fates.len());
        let weight = stretches.saturating_mul(STRETCH_WEIGHT);
        weight.saturating_add(self.bytes.len())
    }

    /// The place, among all bytes that ever came, of a byte that is kept.
    pub(crate) fn place(&self, index: usize) -> u64 {
        self.dropped.saturating_add(index as u64)
    }

    /// Where the byte at a place is kept, or the first one after it that is.
    pub(crate) fn index(&self, place: u64) -> usize
        ensures { result ≤ vec_len self.now.bytes }
    {
        let many = place.saturating_sub(self.dropped);
        many.min(self.bytes.len() as u64) as usize
    }

    /// During which command the byte at a place came.
    pub(crate) fn arrival(&self, place: u64) -> Option<Cause> {
        Some(self.arrivals.at(place)?.what)
    }

    /// What became of the last byte of this part of the kept bytes that the buffer no longer holds,
    /// and by how many bytes the buffer would have to be larger to hold the part still when that
    /// became of it. `None` where the buffer holds all of it, or where that is not kept.
    pub(crate) fn fate(&self, part: Found) -> Option<(Fate, u64)> {
        if self.begin <= part.start {
            return None;
        }
        let end = self.place(self.begin.min(part.end));
        let stretch = self.fates.at(end.checked_sub(1)?)?;
        let short = stretch.end.saturating_sub(self.place(part.start));
        Some((stretch.what, short))
    }

    /// Bytes came during this command, and the buffer holds at most `max` bytes.
    pub(crate) fn arrive(&mut self, bytes: &[u8], max: u32, during: Cause) -> Result<(), NoMemory>
        ensures kept { OnOk result (self.new.bytes.items ≡ self.old.bytes.items ++ bytes.now) }
        ensures begin { OnOk result (self.new.begin
            ≡ self.old.begin + ((vec_len self.new.bytes - self.old.begin) - max)) }
    {
        self.bytes.extend_from_slice(bytes)?;
        let end = self.came();
        self.arrivals.extend(end, during)?;
        self.resize(max)
    }

    /// The buffer holds at most `max` bytes.
    pub(crate) fn resize(&mut self, max: u32) -> Result<(), NoMemory>
        ensures kept { self.new.bytes.items ≡ self.old.bytes.items }
        ensures begin { self.new.begin
            ≡ self.old.begin + ((vec_len self.old.bytes - self.old.begin) - max) }
    {
        let excess = self.held().saturating_sub(max as usize);
        if 0 < excess {
            self.begin += excess;
            let end = self.place(self.begin);
            self.fates.push(end, Fate::Forgotten)?;
        }
        Ok(())
    }

    /// A command consumed the first `count` bytes of the buffer.
    pub(crate) fn consume(&mut self, count: usize, by: Cause) -> Result<(), NoMemory>
        ensures kept { self.new.bytes.items ≡ self.old.bytes.items }
        ensures begin { self.new.begin
            ≡ self.old.begin + min count (vec_len self.old.bytes - self.old.begin) }
    {
        let count = count.min(self.held());
        if 0 < count {
            self.begin += count;
            let end = self.place(self.begin);
            self.fates.extend(end, Fate::Consumed(by))?;
        }
        Ok(())
    }

    /// Drops the older half of the bytes, and what happened to them.
    pub(crate) fn halve(&mut self) {
        let count = self.bytes.len() / 2;
        let kept = self.bytes.len() - count;
        self.begin = self.begin.saturating_sub(count);
        self.bytes.copy_within(count.., 0);
        self.bytes.truncate(kept);
        self.dropped = self.dropped.saturating_add(count as u64);
        self.arrivals.drop_before(self.dropped);
        self.fates.drop_before(self.dropped);
    }
}

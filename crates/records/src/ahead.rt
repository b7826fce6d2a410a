//! What was read of a source and not used yet.

ghost use Rattle.std.specs.Prelude.{◌≡◌, ◌≤◌, ◌<◌, ◌+◌, ◌-◌, ◌++◌, ℕ, [], List, drop, length, vec_len, IfOk, MatchOption, OnErr, OnOk};

use crate::source::{ROOM, Source, first_room};
use acts::NoMemory;
use std::alloc::Allocator;

/// Bytes that were read and not used yet, which are used from the front. They lie in one block, and
/// a piece is read to their end. Where the block ends they are moved to its front, but only where
/// at least as many bytes were used: so a byte is moved once on average. Else the block grows.
pub struct Ahead<A: Allocator> {
    block: Vec<u8, A>,
    start: usize,
    end: usize,
    ghost within: { (start ≤ end) × (end ≤ vec_len block) × (0 < vec_len block) },
}

impl<A: Allocator> Drop for Ahead<A> {
    fn drop(self) {
        let Ahead {
            block: _,
            start: _,
            end: _,
        } = self;
    }
}

impl<A: Allocator + Copy> Ahead<A> {
    ghost use Rattle.records.specs.Reading.{unused};

    /// No bytes.
    pub fn new(alloc: A) -> Result<Ahead<A>, NoMemory>
        ensures { IfOk result (λ ahead. unused ahead ≡ []) }
    {
        let block = first_room(alloc)?;
        Ok(Ahead {
            block,
            start: 0,
            end: 0,
        })
    }

    /// The bytes.
    pub fn text(&self) -> &[u8]
        ensures { result.now ≡ unused self.now }
    {
        &self.block[self.start..self.end]
    }

    /// Uses bytes of the front.
    pub fn use_up(&mut self, count: usize)
        requires { count ≤ length (unused self.old) }
        ensures { unused self.new ≡ drop count (unused self.old) }
    {
        self.start += count;
    }

    /// Reads a piece of a source, and says how many bytes it had; `None` where reading is given up.
    pub fn read_from<S: Source>(&mut self, source: &mut S) -> Option<usize>
        requires { self.old.end < vec_len self.old.block }
        ensures { MatchOption result (S.gives_up source.old source.new)
            (λ taken. (piece : List ℕ) × (length piece ≡ taken)
            × S.gives source.old piece source.new
            × (taken + S.most source.new ≤ S.most source.old)
            × (unused self.new ≡ unused self.old ++ piece)) }
    {
        let taken = source.read_some(&mut self.block[self.end..])?;
        self.end += taken;
        Some(taken)
    }

    /// Makes room for a piece. Where memory is refused, all stays as it is.
    pub fn make_room(&mut self) -> Result<(), NoMemory>
        ensures room { OnOk result (self.new.end < vec_len self.new.block) }
        ensures kept { OnOk result (unused self.new ≡ unused self.old) }
    {
        if self.end < self.block.len() {
            return Ok(());
        }
        if ROOM <= self.block.len() && self.end - self.start <= self.start {
            self.move_to_front();
            return Ok(());
        }
        let len = ROOM.max(2 * self.block.len());
        Ok(self.block.resize(len, 0)?)
    }

    /// Moves the bytes to the front of the block.
    fn move_to_front(&mut self)
        ensures end { self.new.end ≡ self.old.end - self.old.start }
        ensures block { vec_len self.new.block ≡ vec_len self.old.block }
        ensures kept { unused self.new ≡ unused self.old }
    {
        self.block.copy_within(self.start..self.end, 0);
        self.end -= self.start;
        self.start = 0;
    }
}

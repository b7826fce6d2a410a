//! A match buffer in which patterns are sought again and again.

ghost use Rattle.std.specs.Prelude.{◌≡◌, ◌≤◌, ◌↔◌, ◌++◌, drop, length, take, Err, IfOk, IfSome, IsTrue, OnOk, OnErr, MatchOption};
ghost use Rattle.circular_buffer.specs.Buffer.{keep_last};
ghost use Rattle.searches.specs.Lead.{IsLead, is_all, run_of};
ghost use Rattle.matchbuf.specs.Held.{held};
ghost use Rattle.matchbuf.specs.Size.{IsSize};
ghost use Rattle.patterns.specs.Match.{IsFound, SitsNowhere};

use crate::lead::Lead;
use crate::vain::{Vain, forget, make_slot, note, place_of, room};
use acts::NoMemory;
use matchbuf::{MatchBuf, MatchBufError};
use patterns::{Found, Pattern, Scratch};
use std::alloc::Allocator;
use std::marker::Model;

/// The searches of one choice. All windows are searched for the same choice by the same number.
#[derive(Clone, Copy)]
pub struct Round {
    /// Which choice it is, counted round.
    pub number: u64,
    /// Whether memory may be asked for, as before a wait but not after an arrival.
    pub grows: bool,
}

/// A match buffer, and the runs that were sought in it and not found: a search for such a run
/// continues where the last one ended.
///
/// Each pattern that is sought for a choice has a slot, the first one the first slot. So the same
/// patterns, sought in the same order after each arrival, find in their slots where they ended.
pub struct Searched<A: Allocator> {
    buffer: MatchBuf<A>,
    vains: Vec<Vain<A>, A>,
    /// The number of the last round in which something was sought here.
    round: u64,
    /// The slot of what is sought next in that round.
    slot: usize,
    /// How many bytes are gone from the front since no search was remembered.
    gone: usize,
}

impl<A: Allocator> Drop for Searched<A> {
    fn drop(self) {
        let Searched {
            buffer: _,
            vains: _,
            round: _,
            slot: _,
            gone: _,
        } = self;
    }
}

impl<A: Allocator> Model for Searched<A> {
    ghost use Rattle.matchbuf.specs.Held.{Held};
    ghost use Rattle.searches.specs.Vain.{ArePassed};

    ghost Value = { Held };

    ghost view = { λ s. s.buffer };

    ghost invariant = { λ s. ArePassed s.gone s.buffer.bytes s.vains.items };
}

impl<A: Allocator> Searched<A> {
    /// A buffer in which nothing was sought.
    pub fn new(alloc: A, buffer: MatchBuf<A>) -> Result<Searched<A>, NoMemory>
        ensures { IfOk result (λ searched. searched ≡ buffer) }
    {
        let vains = room(alloc)?;
        Ok(Searched {
            buffer,
            vains,
            round: 0,
            slot: 0,
            gone: 0,
        })
    }

    /// How many bytes it holds.
    pub fn len(&self) -> usize
        ensures len { result ≡ length self.now.bytes }
        ensures within { result ≤ self.now.max }
        ensures size { IsSize self.now.max }
    {
        self.buffer.len()
    }

    /// How many bytes it may hold.
    pub fn max(&self) -> u32
        ensures max { result ≡ self.now.max }
        ensures within { IsSize result }
    {
        self.buffer.max()
    }

    /// Whether it holds as many bytes as it may.
    pub fn is_full(&self) -> bool
        ensures { IsTrue result ↔ (length self.now.bytes ≡ self.now.max) }
    {
        self.buffer.is_full()
    }

    /// Takes an arrival, and forgets the oldest bytes where there are too many. Takes no memory.
    pub fn arrive(&mut self, bytes: &[u8])
        ensures value { let max = self.old.max in
            self.new ≡ held (keep_last max (self.old.bytes ++ bytes.now)) max }
    {
        let free = self.buffer.max() as usize - self.buffer.len();
        self.buffer.arrive(bytes);
        forget(
            &mut self.vains,
            &mut self.gone,
            bytes.len().saturating_sub(free),
        );
    }

    /// Consumes the first `n` bytes.
    pub fn take(&mut self, n: usize)
        requires { n ≤ length self.old.bytes }
        ensures value { self.new ≡ held (drop n self.old.bytes) self.old.max }
    {
        self.buffer.take(n);
        forget(&mut self.vains, &mut self.gone, n);
    }
}

impl<A: Allocator> Searched<A> {
    /// Begins with the first slot, where something was sought last in another round.
    fn enter(&mut self, number: u64)
        ensures { self.new ≡ self.old }
    {
        if self.round != number {
            self.round = number;
            self.slot = 0;
        }
    }

    /// The slot of what is sought next in a round. It is made where the round may ask for memory.
    fn next_slot(&mut self, round: Round) -> usize
        ensures { self.new ≡ self.old }
    {
        self.enter(round.number);
        let slot = self.slot;
        self.slot = slot.saturating_add(1);
        if round.grows {
            make_slot(&mut self.vains, slot);
        }
        slot
    }
}

impl<A: Allocator + Copy> Searched<A> {
    /// Finds a pattern in the window. Memory is asked for only where the round may, and a refusal
    /// changes no answer.
    pub fn search(
        &mut self,
        alloc: A,
        pattern: &Pattern<A>,
        lead: Option<&Lead<A>>,
        round: Round,
    ) -> Option<Found>
        requires { IfSome lead (λ lead. IsLead pattern.now lead.now) }
        ensures unchanged { self.new ≡ self.old }
        ensures found { let window = self.old.bytes in MatchOption result
            (SitsNowhere pattern.now window)
            (λ found. IsFound pattern.now window found.start found.end) }
    {
        let slot = self.next_slot(round);
        match lead {
            Some(lead) => self.search_by(alloc, pattern, lead, slot),
            None => self.find(alloc, pattern),
        }
    }

    /// Finds a pattern in the window, what is sought first of it before all else.
    fn search_by(
        &mut self,
        alloc: A,
        pattern: &Pattern<A>,
        lead: &Lead<A>,
        slot: usize,
    ) -> Option<Found>
        requires { IsLead pattern.now lead.now }
        ensures unchanged { self.new ≡ self.old }
        ensures found { let window = self.old.bytes in MatchOption result
            (SitsNowhere pattern.now window)
            (λ found. IsFound pattern.now window found.start found.end) }
    {
        let first = self.search_first(alloc, pattern, lead, slot)?;
        if lead.is_all() {
            return Some(first);
        }
        self.find(alloc, pattern)
    }

    /// Finds what is sought first of a pattern, by what its slot remembers.
    fn search_first(
        &mut self,
        alloc: A,
        pattern: &Pattern<A>,
        lead: &Lead<A>,
        slot: usize,
    ) -> Option<Found>
        requires { IsLead pattern.now lead.now }
        ensures unchanged { self.new ≡ self.old }
        ensures found { let window = self.old.bytes in MatchOption result
            (SitsNowhere (run_of lead.now.key) window)
            (λ found. IsTrue (is_all lead.now.seeker) →
            IsFound (run_of lead.now.key) window found.start found.end) }
    {
        let len = self.buffer.len();
        if len < lead.size() {
            return None;
        }
        let mut scratch = self.scratch(alloc);
        let known = place_of(&self.vains, slot, lead.key(), self.gone).min(len);
        // Fewer bytes are left than the run takes.
        if len - known < lead.size() {
            return None;
        }
        match lead.find(pattern, self.buffer.window(), known, &mut scratch) {
            Some(found) => Some(found),
            None => {
                let next = (len + 1).saturating_sub(lead.size());
                note(&mut self.vains, slot, lead.key(), next, self.gone);
                None
            }
        }
    }

    /// Finds a pattern anywhere in the window.
    fn find(&mut self, alloc: A, pattern: &Pattern<A>) -> Option<Found>
        ensures unchanged { self.new ≡ self.old }
        ensures found { let window = self.old.bytes in MatchOption result
            (SitsNowhere pattern.now window)
            (λ found. IsFound pattern.now window found.start found.end) }
    {
        let mut scratch = self.scratch(alloc);
        pattern.find(self.buffer.window(), &mut scratch).found
    }

    /// What a search of the window needs.
    fn scratch(&self, alloc: A) -> Scratch<A>
        ensures { result ≡ length self.now.bytes }
    {
        let Ok(scratch) = Scratch::new(alloc, self.buffer.len() as u32) else {
            unreachable!()
        };
        scratch
    }

    /// A copy of the first bytes.
    pub fn copy_front(&mut self, alloc: A, end: usize) -> Result<Vec<u8, A>, NoMemory>
        requires { end ≤ length self.old.bytes }
        ensures bytes { IfOk result (λ bytes. bytes.items ≡ take end self.old.bytes) }
        ensures unchanged { self.new ≡ self.old }
    {
        let window = self.buffer.window();
        Ok(Vec::from_slice(alloc, &window[..end])?)
    }

    /// Sets how many bytes it may hold.
    ///
    /// # Errors
    /// `Size` where `max` is no size of a buffer, and `NoMemory`. The buffer is then as it was.
    pub fn set_max(&mut self, max: u32) -> Result<(), MatchBufError>
        ensures value { OnOk result (self.new ≡ held (keep_last max self.old.bytes) max) }
        ensures unchanged { OnErr result (self.new ≡ self.old) }
        ensures size { (result ≡ Err MatchBufError.Size) ↔ ¬ IsSize max }
    {
        self.buffer.set_max(max)?;
        self.vains.clear();
        self.gone = 0;
        Ok(())
    }
}

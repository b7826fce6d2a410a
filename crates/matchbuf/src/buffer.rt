//! The match buffer of one spawned process or connection.
ghost use Rattle.std.specs.Prelude.{◌≡◌, ◌+◌, ◌-◌, ◌≤◌, ◌↔◌, ◌++◌, ◌∷◌, [], ℕ, List, length};
ghost use Rattle.std.specs.Prelude.{take, drop, ◌<◌, ◌^◌};
ghost use Rattle.std.specs.Prelude.{IfOk, IfErr, OnOk, OnErr, IsTrue};
ghost use Rattle.std.specs.Borrow.{sem};
ghost use Rattle.std.specs.List.{between, refill};
ghost use Rattle.circular_buffer.specs.Buffer.{buffer, keep_last};
ghost use Rattle.matchbuf.specs.Held.{held};
ghost use Rattle.matchbuf.specs.Journal.{Record, Arrived, Consumed, Sized, Fits, place_after};
ghost use Rattle.matchbuf.specs.Size.{IsSize};
ghost use Rattle.matchbuf.specs.Unchanged.{StaysUnchanged, RingStays, LendsBytes};

use crate::error::MatchBufError;
use circular_buffer::HeapCircularBuffer;
use std::alloc::Allocator;
use std::marker::Model;

/// The largest size of a match buffer, in bytes.
pub const MAX_SIZE: u32 = 1_000_000;

/// The least room that a buffer has beyond its size, in bytes.
const LEAST_SPARE: usize = 16_384;

/// The last bytes that arrived and were neither consumed nor forgotten, at most as many as its
/// size; expect(1), `match_max`.
///
/// Only [`new`](MatchBuf::new) and [`set_max`](MatchBuf::set_max) take memory.
pub struct MatchBuf<A: Allocator> {
    /// All that was ever written to its block, from the front: nothing is taken from it, so it
    /// never goes round the end of the block. It has room beyond the size, see `room_for`: the
    /// bytes held have to be moved to its front only once for as many that arrive as that room
    /// takes.
    ring: HeapCircularBuffer<u8, A>,
    /// Where the bytes held begin in the ring.
    begin: usize,
    /// Where they end.
    end: usize,
    size: u32,
}

impl<A: Allocator> Drop for MatchBuf<A> {
    fn drop(self) {
        let MatchBuf {
            ring: _,
            begin: _,
            end: _,
            size: _,
        } = self;
    }
}

impl<A: Allocator> Model for MatchBuf<A> {
    ghost use Rattle.matchbuf.specs.Held.{Held, held, held_code};
    ghost use Rattle.matchbuf.specs.Size.{IsSize};
    ghost use Rattle.std.specs.Prelude.{◌+◌, ◌≤◌, length};
    ghost use Rattle.std.specs.List.{between};

    ghost Value = { Held };

    ghost coded = { held_code };

    ghost view = { λ b. held (between b.begin b.end b.ring.items) b.size };

    ghost invariant = { λ b. IsSize b.size × (b.size ≤ b.ring.capacity)
        × (b.begin ≤ b.end) × (b.end ≤ length b.ring.items) × (b.end ≤ b.begin + b.size) };
}

impl<A: Allocator> MatchBuf<A> {
    /// An empty buffer of the size `max`, in bytes.
    ///
    /// # Errors
    /// `Size` where `max` is not from 1 to [`MAX_SIZE`], and `NoMemory`.
    pub fn new(alloc: A, max: u32) -> Result<MatchBuf<A>, MatchBufError>
        ensures fits { IfOk result (λ buffer. Fits (Sized max ∷ []) buffer) }
        ensures value { IfOk result (λ buffer. buffer ≡ held [] max) }
        ensures size { (result ≡ Err MatchBufError.Size) ↔ ¬ IsSize max }
    {
        check_size(max)?;
        let ring = HeapCircularBuffer::with_capacity(alloc, room_for(max))?;
        Ok(MatchBuf {
            ring,
            begin: 0,
            end: 0,
            size: max,
        })
    }

    /// How many bytes it holds.
    pub fn len(&self) -> usize
        ensures len { result ≡ length self.now.bytes }
        ensures within { result ≤ self.now.max }
        ensures size { IsSize self.now.max }
    {
        self.end - self.begin
    }

    /// Its size: how many bytes it may hold.
    pub fn max(&self) -> u32
        ensures max { result ≡ self.now.max }
        ensures within { IsSize result }
    {
        self.size
    }

    /// Whether it holds as many bytes as it may; expect(1), `full_buffer`.
    pub fn is_full(&self) -> bool
        ensures { IsTrue result ↔ (length self.now.bytes ≡ self.now.max) }
    {
        self.len() == self.max() as usize
    }

    /// Takes an arrival whole, however long, and then forgets the oldest bytes where there are too
    /// many.
    pub fn arrive(&mut self, bytes: &[u8])
        ensures fits { (j : List Record) → Fits j self.old → Fits (Arrived bytes.now ∷ j) self.new }
        ensures value { let max = self.old.max in
            self.new ≡ held (keep_last max (self.old.bytes ++ bytes.now)) max }
    {
        let size = self.max() as usize;
        let newest = last_bytes(bytes, size);
        let over = (self.len() + newest.len()).saturating_sub(size);
        self.take(over);
        let count = self.len();
        self.begin = make_room(&mut self.ring, self.begin, self.end, newest.len());
        self.end = self.begin + count;
        write_at(&mut self.ring, self.end, newest);
        self.end += newest.len();
    }

    /// Consumes the first `n` bytes.
    pub fn take(&mut self, n: usize)
        requires { n ≤ length self.old.bytes }
        ensures fits { (j : List Record) → Fits j self.old
            → Fits (Consumed (place_after j n) ∷ j) self.new }
        ensures value { self.new ≡ held (drop n self.old.bytes) self.old.max }
    {
        self.begin += n;
    }

    /// The bytes that it holds, the oldest first, in one piece.
    pub fn window(&mut self) -> &[u8]
        ensures* unchanged { sem 𝓛 (StaysUnchanged A.row A.Allocator self.entry) }
        ensures value { result.now ≡ self.old.bytes }
    {
        let (begin, end) = (self.begin, self.end);
        &block(&mut self.ring)[begin..end]
    }
}

impl<A: Allocator + Copy> MatchBuf<A> {
    /// Sets the size to `max` bytes. A smaller one forgets the oldest bytes, and a larger one
    /// brings none back.
    ///
    /// # Errors
    /// `Size` where `max` is not from 1 to [`MAX_SIZE`], and `NoMemory`. The buffer is then as it
    /// was.
    pub fn set_max(&mut self, max: u32) -> Result<(), MatchBufError>
        ensures fits { OnOk result ((j : List Record) → Fits j self.old
            → Fits (Sized max ∷ j) self.new) }
        ensures value { OnOk result (self.new ≡ held (keep_last max self.old.bytes) max) }
        ensures unchanged { OnErr result (self.new ≡ self.old) }
        ensures size { (result ≡ Err MatchBufError.Size) ↔ ¬ IsSize max }
    {
        let mut other = MatchBuf::new(*self.ring.allocator(), max)?;
        other.arrive(self.window());
        *self = other;
        Ok(())
    }
}

/// The bytes of the ring, in one piece.
fn block<A: Allocator>(ring: &mut HeapCircularBuffer<u8, A>) -> &[u8]
    ensures* unchanged { sem 𝓛 (RingStays A.row A.Allocator ring.entry) }
    ensures value { result.now ≡ ring.old.items }
{
    straighten(ring)
}

/// Moves the bytes of the ring into one piece.
fn straighten<A: Allocator>(ring: &mut HeapCircularBuffer<u8, A>) -> &mut [u8]
    ensures* writes_back { sem 𝓛 (LendsBytes A.row A.Allocator ring.entry result) }
    ensures value { result.now ≡ ring.old.items }
    ensures same_len { let old = ring.old.items in
        (bytes : List ℕ) → length bytes ≡ length old → refill (length old) old bytes ≡ bytes }
{
    ring.make_contiguous()
}

/// Makes room for `count` bytes after those from `begin` to `end`: where the block ends too soon,
/// moves them to its front. Answers where they begin then.
fn make_room<A: Allocator>(
    ring: &mut HeapCircularBuffer<u8, A>,
    begin: usize,
    end: usize,
    count: usize,
) -> usize
    requires within { (begin ≤ end) × (end ≤ length ring.old.items) }
    requires room { end - begin + count ≤ ring.old.capacity }
    ensures bytes { between result (result + (end - begin)) ring.new.items
        ≡ between begin end ring.old.items }
    ensures within { result + (end - begin) ≤ length ring.new.items }
    ensures room { result + (end - begin) + count ≤ ring.new.capacity }
    ensures capacity { ring.new.capacity ≡ ring.old.capacity }
    ensures short { ring.new.capacity < 2 ^ 63 }
{
    let spare = ring.capacity() - end;
    if begin == end {
        return 0;
    }
    if count <= spare {
        return begin;
    }
    ring.make_contiguous().copy_within(begin..end, 0);
    0
}

/// Writes the bytes to the places from `at` on, over what stands there.
fn write_at<A: Allocator>(ring: &mut HeapCircularBuffer<u8, A>, at: usize, bytes: &[u8])
    requires within { at ≤ length ring.old.items }
    requires room { at + length bytes.now ≤ ring.old.capacity }
    ensures { ring.new ≡ buffer (take at ring.old.items
        ++ (bytes.now ++ drop (at + length bytes.now) ring.old.items)) ring.old.capacity }
{
    let old = bytes.len().min(ring.len() - at);
    let (over, beyond) = bytes.split_at(old);
    ring.make_contiguous()[at..at + old].copy_from_slice(over);
    if !beyond.is_empty() {
        ring.extend_from_slice(beyond);
    }
}

/// The last bytes, as many as may be held.
fn last_bytes(bytes: &[u8], size: usize) -> &[u8]
    ensures { result.now ≡ keep_last size bytes.now }
{
    &bytes[bytes.len().saturating_sub(size)..]
}

/// How many bytes a buffer of a size has room for: as many again as it may hold, and more where
/// that is little.
fn room_for(size: u32) -> usize
    requires { IsSize size }
    ensures { size ≤ result }
{
    let size = size as usize;
    size + size.max(LEAST_SPARE)
}

/// Refuses a size that no buffer can have.
fn check_size(max: u32) -> Result<(), MatchBufError>
    ensures ok { OnOk result (IsSize max) }
    ensures err { IfErr result (λ e. (e ≡ MatchBufError.Size) × (¬ IsSize max)) }
{
    if max < 1 || MAX_SIZE < max {
        return Err(MatchBufError::Size);
    }
    Ok(())
}

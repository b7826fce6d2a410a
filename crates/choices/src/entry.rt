//! An open id with its match buffer.
ghost use Rattle.std.specs.Prelude.{◌≡◌, ◌≤◌, ◌==◌, ◌↔◌, ◌++◌, length, Err, IfOk, OnOk, OnErr, IfSome, MatchOption};
ghost use Rattle.choices.specs.Choice.{front_of, share_by, shortened_to};
ghost use Rattle.searches.specs.Lead.{IsLead};
ghost use Rattle.choices.specs.Lines.{reached, resized, dropping, row_of_line, without_nulls};
ghost use Rattle.circular_buffer.specs.Buffer.{keep_last};
ghost use Rattle.matchbuf.specs.Held.{held};
ghost use Rattle.matchbuf.specs.Size.{IsSize};
ghost use Rattle.choices.specs.Views.{line_by, kind_of};
ghost use Rattle.patterns.specs.Match.{IsFound, SitsNowhere};

use crate::kind::Kind;
use acts::{Id, NoMemory, Row};
use matchbuf::{MatchBuf, MatchBufError};
use memchr::memchr;
use patterns::{Found, Pattern};
use searches::{Lead, Round, Searched};
use std::alloc::Allocator;
use std::marker::Model;

/// An open id: what it was opened for, its match buffer, and whether nulls are removed from what
/// arrives.
pub(crate) struct Entry<A: Allocator> {
    id: Id,
    kind: Kind,
    buffer: Searched<A>,
    drops_nulls: bool,
}

impl<A: Allocator> Drop for Entry<A> {
    fn drop(self) {
        let Entry {
            id: _,
            kind: _,
            buffer: _,
            drops_nulls: _,
        } = self;
    }
}

impl<A: Allocator> Model for Entry<A> {
    ghost use Rattle.choices.specs.Lines.{Line};
    ghost use Rattle.choices.specs.Views.{line_by, kind_of};

    ghost Value = { Line };

    ghost view = { λ e. line_by e.id (kind_of e.kind) e.buffer e.drops_nulls };
}

impl<A: Allocator> Entry<A> {
    /// An id that is just opened for a process or a connection.
    ///
    /// # Errors
    /// `NoMemory`.
    pub(crate) fn new(
        alloc: A,
        id: Id,
        kind: Kind,
        buffer: MatchBuf<A>,
        drops_nulls: bool,
    ) -> Result<Entry<A>, NoMemory>
        ensures { IfOk result (λ entry. entry ≡ line_by id (kind_of kind) buffer drops_nulls) }
    {
        let buffer = Searched::new(alloc, buffer)?;
        Ok(Entry {
            id,
            kind,
            buffer,
            drops_nulls,
        })
    }

    /// The id.
    pub(crate) fn id(&self) -> Id
        ensures { result ≡ self.now.id }
    {
        self.id
    }

    /// What the id was opened for.
    pub(crate) fn kind(&self) -> Kind
        ensures { kind_of result ≡ self.now.kind }
    {
        self.kind
    }

    /// Whether its buffer holds as many bytes as it may.
    pub(crate) fn is_full(&self) -> bool
        ensures { result ≡ (length self.now.held.bytes == self.now.held.max) }
    {
        self.buffer.is_full()
    }

    /// How many bytes its buffer holds.
    pub(crate) fn len(&self) -> usize
        ensures len { result ≡ length self.now.held.bytes }
        ensures within { result ≤ self.now.held.max }
        ensures size { self.now.held.max ≤ 1000000 }
    {
        self.buffer.len()
    }

    /// How many bytes its buffer may hold.
    pub(crate) fn max(&self) -> u32
        ensures max { result ≡ self.now.held.max }
        ensures within { result ≤ 1000000 }
    {
        self.buffer.max()
    }

    /// Whether nulls are removed from what arrives.
    pub(crate) fn drops_nulls(&self) -> bool
        ensures { result ≡ self.now.drops_nulls }
    {
        self.drops_nulls
    }

    /// Sets whether nulls are removed from what arrives.
    pub(crate) fn set_nulls(&mut self, drops: bool)
        ensures { self.new ≡ dropping drops self.old }
    {
        self.drops_nulls = drops;
    }

    /// Puts bytes into its buffer, without their nulls where those are removed. No memory is asked
    /// for.
    pub(crate) fn arrive(&mut self, bytes: &[u8])
        ensures { self.new ≡ reached bytes.now self.old }
    {
        if self.drops_nulls {
            arrive_without_nulls(&mut self.buffer, bytes);
        } else {
            self.buffer.arrive(bytes);
        }
    }

    /// What a wait reports about the id.
    pub(crate) fn row(&self) -> Row
        ensures { result ≡ row_of_line self.now }
    {
        let max = self.buffer.max();
        let held = self.buffer.len() as u32;
        let room = max - held;
        let want = if room == 0 { max.div_ceil(2) } else { room };
        Row {
            id: self.id,
            held,
            max,
            want,
        }
    }
}

impl<A: Allocator + Copy> Entry<A> {
    /// Finds a pattern in the window. Memory is asked for only where the round may.
    pub(crate) fn search(
        &mut self,
        alloc: A,
        pattern: &Pattern<A>,
        lead: Option<&Lead<A>>,
        round: Round,
    ) -> Option<Found>
        requires { IfSome lead (λ lead. IsLead pattern.now lead.now) }
        ensures unchanged { self.new ≡ self.old }
        ensures found { let window = self.old.held.bytes in MatchOption result
            (SitsNowhere pattern.now window)
            (λ found. IsFound pattern.now window found.start found.end) }
    {
        self.buffer.search(alloc, pattern, lead, round)
    }

    /// Hands out the match and all before it, or the whole window where there is no match. What is
    /// handed out is consumed, unless there is a match and it stays. On `Err` nothing is consumed.
    pub(crate) fn hand_out(
        &mut self,
        alloc: A,
        found: Option<Found>,
        stays: bool,
    ) -> Result<Vec<u8, A>, NoMemory>
        requires { IfSome found (λ f. f.end ≤ length self.old.held.bytes) }
        ensures bytes { IfOk result (λ bytes. bytes.items ≡ front_of found self.old.held.bytes) }
        ensures line { OnOk result (self.new ≡ shortened_to (share_by stays found) self.old) }
        ensures id { self.new.id ≡ self.old.id }
        ensures unchanged { OnErr result (self.new ≡ self.old) }
    {
        let end = match found {
            Some(found) => found.end,
            None => self.buffer.len(),
        };
        let bytes = self.buffer.copy_front(alloc, end)?;
        if found.is_none() || !stays {
            self.buffer.take(end);
        }
        Ok(bytes)
    }

    /// Sets the size of its buffer.
    ///
    /// # Errors
    /// `Size` where `max` is no size of a buffer, and `NoMemory`. The entry is then as it was.
    pub(crate) fn set_max(&mut self, max: u32) -> Result<(), MatchBufError>
        ensures line { OnOk result (self.new ≡ resized max self.old) }
        ensures id { self.new.id ≡ self.old.id }
        ensures unchanged { OnErr result (self.new ≡ self.old) }
        ensures size { (result ≡ Err MatchBufError.Size) ↔ ¬ IsSize max }
    {
        self.buffer.set_max(max)
    }
}

/// Puts bytes into a buffer without their nulls, piece by piece (expect(1), remove_nulls).
fn arrive_without_nulls<A: Allocator>(buffer: &mut Searched<A>, bytes: &[u8])
    ensures { let max = buffer.old.max in buffer.new
        ≡ held (keep_last max (buffer.old.bytes ++ without_nulls bytes.now)) max }
{
    let mut rest = bytes;
    while let Some(null) = memchr(0, rest) {
        buffer.arrive(&rest[..null]);
        rest = &rest[null + 1..];
    }
    buffer.arrive(rest);
}

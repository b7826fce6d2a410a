//! What was heard of all ids.

ghost use Rattle.std.specs.Prelude.{◌<◌, vec_len, IfSome};

use crate::cause::Cause;
use crate::tape::Tape;
use acts::Id;
use memory::NoMemory;
use std::alloc::Allocator;

/// How much a history keeps over all ids: the bytes, and 16 for each change of the command during
/// which they came or which consumed them, and for each time that some were forgotten.
pub const MOST_KEPT: usize = 1_048_576;

/// Of how many ids a history keeps something.
pub const MOST_IDS: usize = 128;

/// What was heard of all ids, within limits: where more than [`MOST_KEPT`] is kept, the id with the
/// most loses its older half, and where there are more than [`MOST_IDS`], the one that spoke first
/// is forgotten.
pub struct Heard<A: Allocator> {
    alloc: A,
    /// The ids in the order in which they first spoke.
    tapes: Vec<Tape<A>, A>,
}

impl<A: Allocator> Drop for Heard<A> {
    fn drop(self) {
        let Heard { alloc: _, tapes: _ } = self;
    }
}

impl<A: Allocator + Copy> Heard<A> {
    /// The history of a run in which nothing has come yet.
    pub fn new(alloc: A) -> Heard<A> {
        Heard {
            alloc,
            tapes: Vec::new(alloc),
        }
    }

    /// Bytes came from an id during a command. Its buffer then holds at most `max` bytes, and has
    /// forgotten what is older (expect(1), match_max).
    ///
    /// The bytes are those that the buffer gets: without the nulls that are taken out. After an
    /// `Err` some of what happened to them may be missing.
    pub fn arrive(
        &mut self,
        id: Id,
        bytes: &[u8],
        max: u32,
        during: Cause,
    ) -> Result<(), NoMemory> {
        self.listen(id)?;
        if let Some(place) = self.place(id) {
            self.tapes[place].arrive(bytes, max, during)?;
        }
        self.keep_limit();
        Ok(())
    }

    /// Makes a tape for an id that has none.
    fn listen(&mut self, id: Id) -> Result<(), NoMemory> {
        if self.place(id).is_some() {
            return Ok(());
        }
        if self.tapes.len() >= MOST_IDS {
            self.tapes.remove(0);
        }
        self.tapes.push(Tape::new(self.alloc, id))?;
        Ok(())
    }
}

impl<A: Allocator> Heard<A> {
    /// A command consumed the first `count` bytes of an id's buffer, or all if it holds fewer.
    ///
    /// After an `Err` it is not known which command it was.
    pub fn consume(&mut self, id: Id, count: usize, by: Cause) -> Result<(), NoMemory> {
        match self.place(id) {
            Some(place) => self.tapes[place].consume(count, by),
            None => Ok(()),
        }
    }

    /// An id's buffer holds at most `max` bytes from now on (expect(1), match_max).
    ///
    /// After an `Err` it is not known that bytes were forgotten.
    pub fn resize(&mut self, id: Id, max: u32) -> Result<(), NoMemory> {
        match self.place(id) {
            Some(place) => self.tapes[place].resize(max),
            None => Ok(()),
        }
    }

    /// How many bytes ever came from an id; 0 if nothing is kept of it.
    pub fn came(&self, id: Id) -> u64 {
        match self.tape(id) {
            Some(tape) => tape.came(),
            None => 0,
        }
    }

    /// How many of the first bytes of an id are no longer kept.
    pub fn dropped(&self, id: Id) -> u64 {
        match self.tape(id) {
            Some(tape) => tape.dropped(),
            None => 0,
        }
    }

    /// The bytes of an id that are kept, and neither consumed nor forgotten.
    pub fn window(&self, id: Id) -> &[u8] {
        match self.tape(id) {
            Some(tape) => tape.window(),
            None => &[],
        }
    }

    /// The tape of an id.
    pub(crate) fn tape(&self, id: Id) -> Option<&Tape<A>> {
        let place = self.place(id)?;
        Some(&self.tapes[place])
    }

    /// The tapes of all ids.
    pub(crate) fn tapes(&self) -> &[Tape<A>] {
        &self.tapes
    }

    /// The place of an id's tape.
    fn place(&self, id: Id) -> Option<usize>
        ensures { IfSome result (λ place. place < vec_len self.now.tapes) }
    {
        self.tapes.iter().position(|tape| tape.id() == id)
    }

    /// How much is kept.
    fn weight(&self) -> usize {
        let mut weight = 0usize;
        for tape in &self.tapes {
            weight = weight.saturating_add(tape.weight());
        }
        weight
    }

    /// Drops what is too much. Each id may lose its half once, which is enough unless more has come
    /// at once than may be kept at all.
    fn keep_limit(&mut self) {
        for _ in 0..MOST_IDS {
            if self.weight() <= MOST_KEPT {
                return;
            }
            self.halve_heaviest();
        }
    }

    /// Drops the older half of the tape that counts most.
    fn halve_heaviest(&mut self) {
        let mut heaviest = 0;
        let mut most = 0;
        for (place, tape) in self.tapes.iter().enumerate() {
            let weight = tape.weight();
            if most < weight {
                most = weight;
                heaviest = place;
            }
        }
        if heaviest < self.tapes.len() {
            self.tapes[heaviest].halve();
        }
    }
}

//! The room in which the entries of a record are gathered.

ghost use Rattle.std.specs.Prelude.{◌≡◌, ◌+◌, ◌≤◌, ◌++◌, [], drop, length, take, vec_len, IfOk};
ghost use Rattle.std.specs.Vec.{vec_capacity};

use std::alloc::{AllocError, Global};

/// How many bytes are gathered at most.
pub const ROOM: usize = 65_536;

/// Room for bytes that are gathered. Once it is made, no memory is asked for.
pub struct Room {
    bytes: Vec<u8>,
    ghost enough: { 65536 ≤ vec_capacity bytes },
    ghost within: { vec_len bytes ≤ 65536 },
}

impl Drop for Room {
    fn drop(self) {
        let Room { bytes: _ } = self;
    }
}

impl Room {
    /// Room in which nothing is gathered. Errors: memory is refused.
    pub fn new(alloc: Global) -> Result<Room, AllocError>
        ensures { IfOk result (λ room. room.bytes.items ≡ []) }
    {
        let bytes = Vec::with_capacity(alloc, ROOM)?;
        Ok(Room { bytes })
    }

    /// What was gathered.
    pub fn bytes(&self) -> &[u8]
        ensures bytes { result.now ≡ self.now.bytes.items }
        ensures within { length result.now ≤ 65536 }
    {
        &self.bytes
    }

    /// Gathers a text.
    pub fn add(&mut self, text: &[u8])
        requires { vec_len self.old.bytes + length text.now ≤ 65536 }
        ensures { self.new.bytes.items ≡ self.old.bytes.items ++ text.now }
    {
        let added = self.bytes.extend_from_slice(text);
        prove!(added.is_ok());
    }

    /// Drops all but the first bytes.
    pub fn truncate(&mut self, count: usize)
        ensures { self.new.bytes.items ≡ take count self.old.bytes.items }
    {
        self.bytes.truncate(count);
    }

    /// Drops the first bytes.
    pub fn drop_front(&mut self, count: usize)
        requires { count ≤ vec_len self.old.bytes }
        ensures { self.new.bytes.items ≡ drop count self.old.bytes.items }
    {
        // `drain` turns all bytes round, one by one, also where none is left.
        if count == self.bytes.len() {
            self.bytes.clear();
        } else {
            self.bytes.drain(..count);
        }
    }
}

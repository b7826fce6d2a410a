//! Sources of bytes, and the room into which bytes are read.

ghost use Rattle.std.specs.Prelude.{◌≡◌, ◌+◌, ◌<◌, ◌≤◌, ℕ, List, IfNone, IfOk, IfSome, length, take, vec_len};

use acts::NoMemory;
use std::alloc::Allocator;

/// How many bytes are read at a time first: as many as most scripts and records have.
const FIRST_ROOM: usize = 4_096;

/// How many bytes are read at a time, once a read has filled the room.
pub(crate) const ROOM: usize = 65_536;

/// A source of bytes, which are read piece by piece.
pub trait Source {
    /// Whether a read may give these bytes and lead from one state to another.
    ghost gives: { Self → List ℕ → Self → Type 0 };

    /// Whether reading may be given up by a read that leads from one state to another.
    ghost gives_up: { Self → Self → Type 0 };

    /// How many bytes it gives at most from a state on.
    ghost most: { Self → ℕ };

    /// Reads some bytes to the front of a room, and says how many: none only where no more are
    /// read. `None` where reading is given up.
    fn read_some(&mut self, room: &mut [u8]) -> Option<usize>
        requires { 0 < length room.old }
        ensures len { length room.new ≡ length room.old }
        ensures within { IfSome result (λ taken. taken ≤ length room.new) }
        ensures gives { IfSome result (λ taken. gives self.old (take taken room.new) self.new) }
        ensures most { IfSome result (λ taken. taken + most self.new ≤ most self.old) }
        ensures up { IfNone result (gives_up self.old self.new) };
}

/// The room for the first read.
pub fn first_room<A: Allocator + Copy>(alloc: A) -> Result<Vec<u8, A>, NoMemory>
    ensures { IfOk result (λ room. 0 < vec_len room) }
{
    Ok(vec![in alloc; 0u8; FIRST_ROOM]?)
}

/// Makes a room of which so many bytes were taken as large as rooms get, where it was full.
pub fn widen<A: Allocator>(room: &mut Vec<u8, A>, taken: usize) -> Result<(), NoMemory>
    requires { 0 < vec_len room.old }
    ensures { 0 < vec_len room.new }
{
    if taken < room.len() {
        return Ok(());
    }
    Ok(room.resize(ROOM, 0)?)
}

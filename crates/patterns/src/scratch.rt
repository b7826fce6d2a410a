//! What a caller lends to a search while it runs.
ghost use Rattle.std.specs.Prelude.{◌≡◌, ℕ, IsOkAnd};

use memory::NoMemory;
use std::alloc::Allocator;
use std::marker::{Model, PhantomData};

/// The room of a search: how many bytes a window may have.
///
/// Callers name the room that their windows may need before they search. A search needs no memory
/// of its own, so the room is only a number. [`Pattern::find`] requires that the window is no
/// longer than that, so that the steps of each search fit 64 bits.
///
/// [`Pattern::find`]: crate::Pattern::find
#[derive(Drop)]
pub struct Scratch<A: Allocator> {
    room: u32,
    memory: PhantomData<A>,
}

impl<A: Allocator> Model for Scratch<A> {
    ghost Value = { ℕ };

    ghost view = { λ s. s.room };
}

impl<A: Allocator> Scratch<A> {
    /// Room for windows of at most `room` bytes.
    ///
    /// # Errors
    /// None today, since no memory is asked for.
    pub fn new(_alloc: A, room: u32) -> Result<Scratch<A>, NoMemory>
        ensures { IsOkAnd result (λ scratch. scratch ≡ room) }
    {
        Ok(Scratch {
            room,
            memory: PhantomData,
        })
    }
}

//! What happened to the bytes of an id, by stretches.

use memory::NoMemory;
use std::alloc::Allocator;

/// What happened to some bytes, from the end of the stretch before them up to this place.
#[derive(Clone, Copy, Debug, PartialEq, Eq)]
pub(crate) struct Stretch<T> {
    /// The place after the last byte; places count all bytes that ever came.
    pub(crate) end: u64,
    /// What happened to them.
    pub(crate) what: T,
}

/// Stretches in the order of their places.
#[derive(Drop)]
pub(crate) struct Track<T: Copy + PartialEq, A: Allocator> {
    stretches: Vec<Stretch<T>, A>,
}

impl<T: Copy + PartialEq, A: Allocator> Track<T, A> {
    /// A track without a stretch.
    pub(crate) fn new(alloc: A) -> Track<T, A> {
        Track {
            stretches: Vec::new(alloc),
        }
    }

    /// How many stretches there are.
    pub(crate) fn len(&self) -> usize {
        self.stretches.len()
    }

    /// Adds a stretch up to `end`.
    pub(crate) fn push(&mut self, end: u64, what: T) -> Result<(), NoMemory> {
        self.stretches.push(Stretch { end, what })?;
        Ok(())
    }

    /// Adds a stretch up to `end`, or lengthens the last one if the same happened to it.
    pub(crate) fn extend(&mut self, end: u64, what: T) -> Result<(), NoMemory> {
        match self.stretches.last_mut() {
            Some(last) if last.what == what => {
                last.end = end;
                Ok(())
            }
            _ => self.push(end, what),
        }
    }

    /// The stretch that the byte at a place stands in.
    pub(crate) fn at(&self, place: u64) -> Option<Stretch<T>> {
        for stretch in &self.stretches {
            if place < stretch.end {
                return Some(*stretch);
            }
        }
        None
    }

    /// Drops the stretches that end at this place or before it.
    pub(crate) fn drop_before(&mut self, place: u64) {
        self.stretches.retain(|stretch| place < stretch.end);
    }
}

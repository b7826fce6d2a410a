//! A sink that takes little at a time.

use records::Sink;
use std::cell::Cell;
use std::io;

/// A sink that takes one byte at a time, and counts the puts that come after it has failed.
#[derive(Drop)]
pub struct Short<'a, S> {
    pub inner: S,
    pub late: &'a Cell<u64>,
}

impl<S: Sink> Sink for Short<'_, S> {
    ghost adds = { λ _ _ _. Unit {0} };

    ghost has_failed = { λ sink. S.has_failed sink.inner };

    fn put(&mut self, bytes: &[u8]) -> usize {
        if self.inner.failed() {
            self.late.set(self.late.get().saturating_add(1));
        }
        match bytes {
            [first, ..] => self.inner.put(&[*first]),
            [] => self.inner.put(bytes),
        }
    }

    fn failed(&self) -> bool {
        self.inner.failed()
    }

    fn fault(&self) -> Option<io::Error> {
        self.inner.fault()
    }
}

/// Whether a text is written as far as there was room for it.
pub fn is_front(taken: &[u8], text: &[u8], room: usize) -> bool {
    taken.get(..room) == text.get(..room)
}

//! The entries of records of version 2.

ghost use Rattle.std.specs.Prelude.{◌≡◌};

use acts::{Answer, Row};
use std::alloc::Allocator;

/// An answer, with the rows of the wait that it answers where the record states them.
#[derive(Debug)]
pub struct Entry<A: Allocator> {
    pub rows: Option<Vec<Row, A>>,
    pub answer: Answer<A>,
}

impl<A: Allocator> Drop for Entry<A> {
    fn drop(self) {
        let Entry { rows: _, answer: _ } = self;
    }
}

impl<A: Allocator> Entry<A> {
    /// The answer alone.
    pub fn into_answer(self) -> Answer<A>
        ensures { result ≡ self.answer }
    {
        let Entry { rows: _, answer } = self;
        answer
    }
}

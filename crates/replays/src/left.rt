//! The part of a record that was not replayed yet.

ghost use Rattle.std.specs.Prelude.{◌≡◌, ◌+◌, ◌∷◌, [], MatchOption};
ghost use Rattle.records.specs.Entry.{note_of};
ghost use Rattle.replays.specs.Left.{left_in, left_len};

use acts::Answer;
use records::Entry;
use std::alloc::Allocator;
use std::vec::IntoIter;

/// The answers, or the entries, that were not given yet.
#[derive(Drop)]
pub enum Left<A: Allocator> {
    Answers(IntoIter<Answer<A>, A>),
    Entries(IntoIter<Entry<A>, A>),
}

impl<A: Allocator> Left<A> {
    /// The next entry, if one is left.
    pub fn next(&mut self) -> Option<Entry<A>>
        ensures { MatchOption result
            ((left_in self.old ≡ []) × (left_in self.new ≡ [])
            × (left_len self.new ≡ left_len self.old))
            (λ next. (left_in self.old ≡ note_of next ∷ left_in self.new)
            × (left_len self.new + 1 ≡ left_len self.old)) }
    {
        match self {
            Left::Answers(answers) => {
                let answer = answers.next()?;
                Some(Entry { rows: None, answer })
            }
            Left::Entries(entries) => entries.next(),
        }
    }
}

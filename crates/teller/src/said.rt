//! What the words of `expect`, `expect_before` and `expect_after` say of their branches.

use acts::NoMemory;
use dialog::{Keyword, Mark, Sign, Style};
use std::alloc::Allocator;
use tcltext::Value;

/// What a branch waits for, as its words say it.
#[derive(Clone, Copy, Debug, PartialEq, Eq)]
pub(crate) enum Said<'a> {
    /// A pattern, whether letters are folded, and whether it is the only word after `-i` and its
    /// list of ids.
    Pattern {
        style: Style,
        text: &'a [u8],
        folds: bool,
        is_lone: bool,
    },
    /// A keyword.
    Keyword(Keyword),
}

/// What the next word is.
#[derive(Clone, Copy)]
enum Next {
    /// A flag or the pattern of a branch.
    Part,
    /// The ids after `-i`.
    Ids,
    /// The seconds after `-timeout`.
    Seconds,
    /// The pattern after its flag.
    Pattern(Style),
    /// The body of a branch.
    Body,
    /// Nothing is read after a word that is wrong.
    Nothing,
}

/// What the words have said so far.
#[derive(Drop)]
struct Reader<'a, A: Allocator> {
    said: Vec<Said<'a>, A>,
    standing: bool,
    next: Next,
    folds: bool,
    /// Whether a list of ids is the last that was read.
    after_ids: bool,
}

/// What the words say of each branch, in order, up to the first word that is wrong. `standing` is
/// whether they are words of `expect_before` or `expect_after`.
///
/// # Errors
/// `NoMemory`.
pub(crate) fn branches_said<'a, A: Allocator + Copy>(
    alloc: A,
    words: &'a [Value<A>],
    standing: bool,
) -> Result<Vec<Said<'a>, A>, NoMemory> {
    let mut reader = Reader {
        said: Vec::new(alloc),
        standing,
        next: Next::Part,
        folds: false,
        after_ids: false,
    };
    for (place, word) in words.iter().enumerate() {
        let is_last = place.saturating_add(1) == words.len();
        reader.read(word.as_slice(), is_last)?;
    }
    Ok(reader.said)
}

impl<'a, A: Allocator> Reader<'a, A> {
    /// Reads a word.
    fn read(&mut self, word: &'a [u8], is_last: bool) -> Result<(), NoMemory> {
        match self.next {
            Next::Part => self.read_part(word, is_last),
            Next::Ids => {
                self.after_ids = true;
                self.next = Next::Part;
                Ok(())
            }
            Next::Seconds | Next::Body => {
                self.next = Next::Part;
                Ok(())
            }
            Next::Pattern(style) => self.add_pattern(style, word, false),
            Next::Nothing => Ok(()),
        }
    }

    /// Reads a word where a flag or a pattern may stand.
    fn read_part(&mut self, word: &'a [u8], is_last: bool) -> Result<(), NoMemory> {
        match Sign::of(self.standing, word) {
            Sign::Mark(Mark::Folds) => self.folds = true,
            Sign::Mark(Mark::Stays | Mark::TellsPlaces) => {}
            Sign::Regex | Sign::Bad => self.next = Next::Nothing,
            Sign::Ids => self.next = Next::Ids,
            Sign::Seconds => self.next = Next::Seconds,
            Sign::Pattern(style) => self.next = Next::Pattern(style),
            Sign::Keyword(keyword) => return self.add(Said::Keyword(keyword)),
            Sign::Plain => {
                let is_lone = self.after_ids && is_last;
                return self.add_pattern(Style::Glob, word, is_lone);
            }
        }
        Ok(())
    }

    /// Adds the branch of a pattern.
    fn add_pattern(&mut self, style: Style, text: &'a [u8], is_lone: bool) -> Result<(), NoMemory> {
        let folds = self.folds;
        self.add(Said::Pattern {
            style,
            text,
            folds,
            is_lone,
        })
    }

    /// Adds a branch, whose body is next.
    fn add(&mut self, said: Said<'a>) -> Result<(), NoMemory> {
        self.said.push(said)?;
        self.next = Next::Body;
        self.folds = false;
        self.after_ids = false;
        Ok(())
    }
}

//! The branches that words said last, kept with the words, so that words that come again are not
//! read again.

ghost use Rattle.std.specs.Prelude.{◌≡◌, ◌+◌, ◌<◌, ◌≤◌, ◌++◌, ◌∷◌, [], length, Ok, IfOk, OnOk, IfErr, IfSome, IsTrue};
ghost use Rattle.dialog.specs.KeptBranches.{AreKept, IsKept, SaysAlways};
ghost use Rattle.readings.specs.Misreads.{flaw_of};
ghost use Rattle.readings.specs.Reads.{IsRead, place};

use acts::{Id, NoMemory};
use choices::Table;
use readings::{BranchError, Branches, first_shut};
use std::alloc::Allocator;
use std::marker::Model;
use std::rc::Rc;
use tcltext::Value;

/// How many readings are kept at the most.
const MOST_KEPT: usize = 8;

/// Words that say fewer pairs than this are read again in less time than it takes to keep them.
const FEWEST_KEPT: usize = 4;

/// Words with the branches that they say: `current` is the id that was in force, `standing` whether
/// they are words of `expect_before` or `expect_after`.
#[derive(Drop)]
pub(crate) struct Reading<A: Allocator> {
    words: Vec<Value<A>, A>,
    current: Option<Id>,
    standing: bool,
    branches: Rc<Branches<A>, A>,
}

impl<A: Allocator> Reading<A> {
    /// Whether the words are these, read where the id in force was this one.
    fn is_of(&self, words: &[Value<A>], current: Option<Id>, standing: bool) -> bool
        ensures words { IsTrue result → self.now.words.items ≡ words.now }
        ensures current { IsTrue result → self.now.current ≡ current }
        ensures standing { IsTrue result → self.now.standing ≡ standing }
    {
        self.standing == standing && self.current == current && are_same(&self.words, words)
    }

    /// The branches, where the words are these, read where the id in force was this one, and all
    /// ids that the branches name are open.
    fn said_at(
        &self,
        words: &[Value<A>],
        current: Option<Id>,
        standing: bool,
        table: &Table<A>,
    ) -> Option<&Rc<Branches<A>, A>>
        ensures { IsKept self.now → IfSome result (λ b.
            IsRead (place table.now.lines current standing) words.now (Ok b.now.value)) }
    {
        if !self.is_of(words, current, standing) {
            return None;
        }
        match first_shut(table, self.branches.named()) {
            Some(_) => None,
            None => Some(&self.branches),
        }
    }
}

/// The branches that words said last, the latest last. Contracts see nothing of what is kept: what
/// words say does not depend on it.
pub struct KeptBranches<A: Allocator> {
    readings: Vec<Reading<A>, A>,
}

impl<A: Allocator> Drop for KeptBranches<A> {
    fn drop(self) {
        let KeptBranches { readings: _ } = self;
    }
}

impl<A: Allocator> Model for KeptBranches<A> {
    ghost use Rattle.std.specs.Prelude.{◌≤◌, length};
    ghost use Rattle.dialog.specs.KeptBranches.{AreKept};

    ghost Value = { Unit {0} };

    ghost view = { λ kept. tt };

    ghost invariant = { λ kept.
        AreKept kept.readings.items × (length kept.readings.items ≤ 8) };
}

impl<A: Allocator> KeptBranches<A> {
    /// The branches that words say at this place, where they are kept and all ids that they name
    /// are open.
    fn find(
        &self,
        words: &[Value<A>],
        current: Option<Id>,
        standing: bool,
        table: &Table<A>,
    ) -> Option<&Rc<Branches<A>, A>>
        ensures { IfSome result (λ b.
            IsRead (place table.now.lines current standing) words.now (Ok b.now.value)) }
    {
        for reading in &self.readings {
            if let Some(branches) = reading.said_at(words, current, standing, table) {
                return Some(branches);
            }
        }
        None
    }
}

impl<A: Allocator + Copy> KeptBranches<A> {
    /// Keeps nothing yet. Takes no memory.
    pub fn new(alloc: A) -> KeptBranches<A> {
        KeptBranches {
            readings: Vec::new(alloc),
        }
    }

    /// The branches that words say, as [`Branches::read`] reads them. Those of words that came
    /// lately are had once more; others are read, and then kept where there is memory for that.
    ///
    /// # Errors
    /// Those of [`Branches::read`].
    pub fn read<'a>(
        &mut self,
        alloc: A,
        words: &'a [Value<A>],
        current: Option<Id>,
        standing: bool,
        table: &Table<A>,
    ) -> Result<Rc<Branches<A>, A>, BranchError<'a>>
        ensures branches { IfOk result (λ b.
            IsRead (place table.now.lines current standing) words.now (Ok b.value)) }
        ensures flaw { IfErr result (λ e. IfSome (flaw_of e) (λ flaw.
            IsRead (place table.now.lines current standing) words.now (Err flaw))) }
    {
        if let Some(branches) = self.find(words, current, standing, table) {
            let same = held(branches)?;
            return Ok(same);
        }
        let branches = Branches::read(alloc, words, current, standing, table)?;
        let branches = shared(alloc, branches)?;
        if FEWEST_KEPT <= branches.pairs().len() {
            let _ = self.keep(alloc, words, current, standing, &branches);
        }
        Ok(branches)
    }

    /// Keeps words with the branches that they say; where as many are kept as may be, the oldest
    /// are dropped for them.
    fn keep(
        &mut self,
        alloc: A,
        words: &[Value<A>],
        current: Option<Id>,
        standing: bool,
        branches: &Rc<Branches<A>, A>,
    ) -> Result<(), NoMemory>
        requires { SaysAlways words.now current standing branches.now.value }
    {
        let reading = Reading {
            words: same_words(alloc, words)?,
            current,
            standing,
            branches: held(branches)?,
        };
        put(&mut self.readings, reading)
    }
}

/// Appends a reading; where as many are there as may be, the first is dropped for it.
fn put<A: Allocator>(readings: &mut Vec<Reading<A>, A>, reading: Reading<A>) -> Result<(), NoMemory>
    requires kept { AreKept readings.old.items }
    requires most { length readings.old.items ≤ 8 }
    requires reading { IsKept reading }
    ensures kept { AreKept readings.new.items }
    ensures most { length readings.new.items ≤ 8 }
{
    if MOST_KEPT <= readings.len() {
        drop_oldest(readings);
    }
    push_reading(readings, reading)
}

/// Drops the first of at least one reading.
fn drop_oldest<A: Allocator>(readings: &mut Vec<Reading<A>, A>)
    requires some { 0 < length readings.old.items }
    requires kept { AreKept readings.old.items }
    ensures kept { AreKept readings.new.items }
    ensures fewer { length readings.new.items + 1 ≡ length readings.old.items }
{
    let _ = readings.remove(0);
}

/// Appends a reading.
fn push_reading<A: Allocator>(
    readings: &mut Vec<Reading<A>, A>,
    reading: Reading<A>,
) -> Result<(), NoMemory>
    requires kept { AreKept readings.old.items }
    requires reading { IsKept reading }
    ensures kept { AreKept readings.new.items }
    ensures longer { length readings.new.items ≤ length readings.old.items + 1 }
{
    readings.push(reading)?;
    Ok(())
}

/// Branches behind a counted pointer.
fn shared<A: Allocator>(alloc: A, branches: Branches<A>) -> Result<Rc<Branches<A>, A>, NoMemory>
    ensures { IfOk result (λ shared. shared.value ≡ branches) }
{
    Ok(Rc::new(alloc, branches)?)
}

/// The same branches once more; nothing of them is copied.
fn held<A: Allocator>(branches: &Rc<Branches<A>, A>) -> Result<Rc<Branches<A>, A>, NoMemory>
    ensures { IfOk result (λ same. same.value ≡ branches.now.value) }
{
    Ok(branches.clone()?)
}

/// The same words once more, whose texts are shared.
fn same_words<A: Allocator>(alloc: A, words: &[Value<A>]) -> Result<Vec<Value<A>, A>, NoMemory>
    ensures { IfOk result (λ same. same.items ≡ words.now) }
{
    let mut same = Vec::with_capacity(alloc, words.len())?;
    for word in words {
        push_word(&mut same, word)?;
    }
    Ok(same)
}

/// Appends a word, whose text is shared.
fn push_word<A: Allocator>(words: &mut Vec<Value<A>, A>, word: &Value<A>) -> Result<(), NoMemory>
    ensures { OnOk result (words.new.items ≡ words.old.items ++ word.now ∷ []) }
{
    let same = word.share()?;
    words.push(same)?;
    Ok(())
}

/// Whether words have the same texts.
fn are_same<A: Allocator>(words: &[Value<A>], others: &[Value<A>]) -> bool
    ensures { IsTrue result → words.now ≡ others.now }
{
    let mut left = words;
    let mut right = others;
    while let Some((word, more)) = left.split_first() {
        let Some((other, rest)) = right.split_first() else {
            return false;
        };
        if word.as_slice() != other.as_slice() {
            return false;
        }
        left = more;
        right = rest;
    }
    right.is_empty()
}

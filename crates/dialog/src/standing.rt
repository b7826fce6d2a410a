//! The pairs that stand before and after those of each `expect`.
ghost use Rattle.std.specs.Prelude.{◌≡◌, ◌++◌, ◌∷◌, [], IfOk, OnOk, OnErr};
ghost use Rattle.dialog.specs.Standing.{standing, is_among, others, replaced, put_at, other_than, unpaired};

use acts::{Id, NoMemory};
use choices::Pair;
use readings::Branches;
use std::alloc::Allocator;
use std::marker::Model;

/// Where pairs stand (expect(1), expect_before and expect_after).
#[derive(Clone, Copy, Debug, PartialEq, Eq)]
pub enum Side {
    /// Before those of each `expect`.
    Before,
    /// After them.
    After,
}

/// The pairs that stand before and after those of each `expect` (expect(1), expect_before and
/// expect_after).
pub struct Standing<A: Allocator> {
    before: Vec<Pair<A>, A>,
    after: Vec<Pair<A>, A>,
}

impl<A: Allocator> Drop for Standing<A> {
    fn drop(self) {
        let Standing {
            before: _,
            after: _,
        } = self;
    }
}

impl<A: Allocator> Model for Standing<A> {
    ghost use Rattle.dialog.specs.Standing.{Standing as Plain, standing};

    ghost Value = { Plain };

    ghost view = { λ s. standing s.before.items s.after.items };
}

impl<A: Allocator> Standing<A> {
    /// The pairs that stand before those of each `expect`.
    pub fn pairs_before(&self) -> &[Pair<A>]
        ensures { result.now ≡ self.now.before }
    {
        &self.before
    }

    /// The pairs that stand after those of each `expect`.
    pub fn pairs_after(&self) -> &[Pair<A>]
        ensures { result.now ≡ self.now.after }
    {
        &self.after
    }

    /// Removes the pairs of an id from both sides. No memory is asked for.
    pub fn close(&mut self, id: Id)
        ensures { self.new ≡ unpaired id self.old }
    {
        remove_pairs(&mut self.before, id);
        remove_pairs(&mut self.after, id);
    }
}

impl<A: Allocator + Copy> Standing<A> {
    /// Both sides without pairs.
    pub fn new(alloc: A) -> Standing<A>
        ensures { result ≡ standing [] [] }
    {
        Standing {
            before: Vec::new(alloc),
            after: Vec::new(alloc),
        }
    }

    /// Removes from a side the pairs of the ids that branches name, and appends the pairs of the
    /// branches. On `Err` nothing changes.
    pub fn put(&mut self, alloc: A, side: Side, branches: &Branches<A>) -> Result<(), NoMemory>
        ensures put { OnOk result (self.new ≡ put_at side branches.now self.old) }
        ensures unchanged { OnErr result (self.new ≡ self.old) }
    {
        match side {
            Side::Before => self.before = replaced(alloc, &self.before, branches)?,
            Side::After => self.after = replaced(alloc, &self.after, branches)?,
        }
        Ok(())
    }
}

/// Pairs without those of the ids that branches name, followed by the pairs of the branches.
fn replaced<A: Allocator>(
    alloc: A,
    standing: &[Pair<A>],
    branches: &Branches<A>,
) -> Result<Vec<Pair<A>, A>, NoMemory>
    ensures { IfOk result (λ pairs. pairs.items ≡ replaced branches.now standing.now) }
{
    let mut pairs = Vec::new(alloc);
    push_others(&mut pairs, branches.named(), standing)?;
    push_pairs(&mut pairs, branches.pairs())?;
    Ok(pairs)
}

/// Appends the pairs whose ids are not among those named.
fn push_others<A: Allocator>(
    pairs: &mut Vec<Pair<A>, A>,
    named: &[Id],
    standing: &[Pair<A>],
) -> Result<(), NoMemory>
    ensures { OnOk result
        (pairs.new.items ≡ pairs.old.items ++ others named.now standing.now) }
{
    for pair in standing {
        push_other(pairs, named, pair)?;
    }
    Ok(())
}

/// Appends a pair, where its id is not among those named.
fn push_other<A: Allocator>(
    pairs: &mut Vec<Pair<A>, A>,
    named: &[Id],
    pair: &Pair<A>,
) -> Result<(), NoMemory>
    ensures { OnOk result
        (pairs.new.items ≡ pairs.old.items ++ others named.now (pair.now ∷ [])) }
{
    if is_among(named, pair.id()) {
        return Ok(());
    }
    let same = pair.share()?;
    pairs.push(same)?;
    Ok(())
}

/// Appends more pairs.
pub(crate) fn push_pairs<A: Allocator>(
    pairs: &mut Vec<Pair<A>, A>,
    more: &[Pair<A>],
) -> Result<(), NoMemory>
    ensures { OnOk result (pairs.new.items ≡ pairs.old.items ++ more.now) }
{
    pairs.reserve(more.len())?;
    for pair in more {
        let same = pair.share()?;
        pairs.push(same)?;
    }
    Ok(())
}

/// Whether an id is one of `ids`.
pub(crate) fn is_among(ids: &[Id], id: Id) -> bool
    ensures { result ≡ is_among ids.now id }
{
    ids.iter().any(|other| *other == id)
}

/// Removes the pairs of an id.
fn remove_pairs<A: Allocator>(pairs: &mut Vec<Pair<A>, A>, id: Id)
    ensures { pairs.new.items ≡ other_than id pairs.old.items }
{
    pairs.retain(|pair| pair.id() != id);
}

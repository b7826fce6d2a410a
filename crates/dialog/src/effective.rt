//! What an `expect` chooses among, and the ids that it waits for.
ghost use Rattle.std.specs.Prelude.{◌≡◌, ◌++◌, ◌∷◌, [], filter, IfOk, OnOk, IsTrue};
ghost use Rattle.readings.specs.Reads.{is_open_in};
ghost use Rattle.dialog.specs.Standing.{RiseAfter, effective_of, first_mentions, ids_of, waited, all_of, pruned};

use crate::standing::{Standing, is_among, push_pairs};
use acts::{Id, NoMemory};
use choices::{Pair, Table};
use readings::{Branches, push_ids};
use std::alloc::Allocator;
use std::marker::Model;

/// What an `expect` chooses among: the pairs that stand before, its own, those that stand after;
/// and the ids that it waits for, each once (expect(1), expect).
pub struct Effective<A: Allocator> {
    pairs: Vec<Pair<A>, A>,
    ids: Vec<Id, A>,
}

impl<A: Allocator> Drop for Effective<A> {
    fn drop(self) {
        let Effective { pairs: _, ids: _ } = self;
    }
}

impl<A: Allocator> Model for Effective<A> {
    ghost use Rattle.dialog.specs.Standing.{Effective as Plain, effective_of};

    ghost Value = { Plain };

    ghost view = { λ e. effective_of e.pairs.items e.ids.items };
}

impl<A: Allocator + Copy> Effective<A> {
    /// The pairs that stand before, those of the branches, and those that stand after, with the ids
    /// that are waited for.
    ///
    /// # Errors
    /// `NoMemory`.
    pub fn new(
        alloc: A,
        standing: &Standing<A>,
        branches: &Branches<A>,
    ) -> Result<Effective<A>, NoMemory>
        ensures { IfOk result (λ effective. effective ≡ all_of standing.now branches.now) }
    {
        let mut pairs = Vec::new(alloc);
        push_pairs(&mut pairs, standing.pairs_before())?;
        push_pairs(&mut pairs, branches.pairs())?;
        push_pairs(&mut pairs, standing.pairs_after())?;
        let ids = waited(alloc, standing, branches)?;
        Ok(Effective { pairs, ids })
    }
}

impl<A: Allocator> Effective<A> {
    /// The pairs, in order.
    pub fn pairs(&self) -> &[Pair<A>]
        ensures { result.now ≡ self.now.pairs }
    {
        &self.pairs
    }

    /// The ids that are waited for, in the order of their first mentions.
    pub fn ids(&self) -> &[Id]
        ensures { result.now ≡ self.now.ids }
    {
        &self.ids
    }

    /// Drops ids that are no longer open, with their pairs. No memory is asked for.
    pub fn prune(&mut self, table: &Table<A>)
        ensures { self.new ≡ pruned table.now.lines self.old }
    {
        keep_open_pairs(&mut self.pairs, table);
        keep_open(&mut self.ids, table);
    }
}

/// The ids that are waited for, each once.
fn waited<A: Allocator>(
    alloc: A,
    standing: &Standing<A>,
    branches: &Branches<A>,
) -> Result<Vec<Id, A>, NoMemory>
    ensures { IfOk result (λ ids. ids.items ≡ waited standing.now branches.now) }
{
    let mut ids = Vec::new(alloc);
    mention_all(&mut ids, standing.pairs_before())?;
    mention_ids(&mut ids, branches.named())?;
    mention_all(&mut ids, standing.pairs_after())?;
    Ok(ids)
}

/// Appends the ids of pairs that are not there yet, each where it is mentioned first.
fn mention_all<A: Allocator>(ids: &mut Vec<Id, A>, pairs: &[Pair<A>]) -> Result<(), NoMemory>
    ensures { OnOk result (ids.new.items
        ≡ ids.old.items ++ first_mentions ids.old.items (ids_of pairs.now)) }
{
    for pair in pairs {
        mention(ids, pair.id())?;
    }
    Ok(())
}

/// Appends those of more ids that are not there yet, each where it is mentioned first.
fn mention_ids<A: Allocator>(ids: &mut Vec<Id, A>, more: &[Id]) -> Result<(), NoMemory>
    ensures { OnOk result (ids.new.items
        ≡ ids.old.items ++ first_mentions ids.old.items more.now) }
{
    if ids.is_empty() && rise(more) {
        return push_ids(ids, more);
    }
    for id in more {
        mention(ids, *id)?;
    }
    Ok(())
}

/// Whether the numbers of ids rise, so that none is mentioned a second time.
fn rise(ids: &[Id]) -> bool
    ensures { IsTrue result → first_mentions [] ids.now ≡ ids.now }
{
    match ids.split_first() {
        Some((first, more)) => rise_after(*first, more),
        None => true,
    }
}

/// Whether the numbers of ids rise, the first of them above that of another one.
fn rise_after(first: Id, ids: &[Id]) -> bool
    ensures { IsTrue result → RiseAfter first ids.now }
{
    let mut last = first;
    for id in ids {
        if id.0 <= last.0 {
            return false;
        }
        last = *id;
    }
    true
}

/// Appends an id, where it is not there yet.
fn mention<A: Allocator>(ids: &mut Vec<Id, A>, id: Id) -> Result<(), NoMemory>
    ensures { OnOk result (ids.new.items
        ≡ ids.old.items ++ first_mentions ids.old.items (id ∷ [])) }
{
    if is_among(ids, id) {
        return Ok(());
    }
    ids.push(id)?;
    Ok(())
}

/// Keeps the ids that are open.
fn keep_open<A: Allocator>(ids: &mut Vec<Id, A>, table: &Table<A>)
    ensures { ids.new.items ≡ filter (is_open_in table.now.lines) ids.old.items }
{
    ids.retain(|id| table.is_open(*id));
}

/// Keeps the pairs whose ids are open.
fn keep_open_pairs<A: Allocator>(pairs: &mut Vec<Pair<A>, A>, table: &Table<A>)
    ensures { pairs.new.items ≡ filter (λ p. is_open_in table.now.lines p.id) pairs.old.items }
{
    pairs.retain(|pair| table.is_open(pair.id()));
}

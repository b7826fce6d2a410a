//! Lists of ids, as they stand after `-i`.
ghost use Rattle.std.specs.Prelude.{◌≡◌, ◌<◌, ◌^◌, ◌++◌, ◌∷◌, List, [], true, None, is_some, IfOk, OnOk, IfErr, IfSome, MatchOption};
ghost use Rattle.acts.specs.declared.id.Id.{Id as Plain};
ghost use Rattle.tcltext.specs.Seen.{texts};
ghost use Rattle.tcltext.specs.Seen.{flaw_of as list_flaw_of};
ghost use Rattle.readings.specs.Reads.{AreSpelled, IsIds, HasIds, MissesIds, first_shut};
ghost use Rattle.readings.specs.Misreads.{flaw_of};

use crate::branch_error::BranchError;
use acts::{Id, NoMemory};
use choices::Table;
use std::alloc::Allocator;
use tcltext::{ListFault, split_list};

/// The open ids that a text lists, at least one (expect(1), expect -i).
pub(crate) fn open_ids<'a, A: Allocator + Copy>(
    alloc: A,
    table: &Table<A>,
    text: &'a [u8],
) -> Result<Vec<Id, A>, BranchError<'a>>
    ensures ids { IfOk result (λ ids. HasIds table.now.lines text.now ids.items) }
    ensures flaw { IfErr result (λ e. IfSome (flaw_of e) (MissesIds table.now.lines text.now)) }
{
    let Some(ids) = listed_ids(alloc, text)? else {
        return Err(BranchError::NotIds(text));
    };
    if let Some(id) = first_shut(table, &ids) {
        return Err(BranchError::NotOpen(id));
    }
    Ok(ids)
}

/// The ids that a text lists, if it is a list of ids and not an empty one.
fn listed_ids<A: Allocator + Copy>(alloc: A, text: &[u8]) -> Result<Option<Vec<Id, A>>, NoMemory>
    ensures { IfOk result (λ listed. MatchOption listed
        ((ids : List Plain) → ¬ IsIds ids text.now) (λ ids. IsIds ids.items text.now)) }
{
    match split_list(alloc, text) {
        Ok(words) => spelled_ids(alloc, &words),
        Err(fault) => no_ids(alloc, fault),
    }
}

/// No ids for a text that is no list; an error where memory was refused.
fn no_ids<A: Allocator>(_alloc: A, fault: ListFault) -> Result<Option<Vec<Id, A>>, NoMemory>
    ensures none { IfOk result (λ listed. listed ≡ None) }
    ensures flaw { OnOk result (is_some (list_flaw_of fault) ≡ true) }
{
    match fault {
        ListFault::NoMemory(refusal) => Err(refusal),
        ListFault::OpenBrace
        | ListFault::OpenQuote
        | ListFault::AfterBrace
        | ListFault::AfterQuote
        | ListFault::EscapeNotHere => Ok(None),
    }
}

/// The ids that words spell, if there is at least one word and each word spells an id.
fn spelled_ids<A: Allocator>(alloc: A, words: &[Vec<u8, A>]) -> Result<Option<Vec<Id, A>>, NoMemory>
    ensures { IfOk result (λ spelled. MatchOption spelled
        ((ids : List Plain) → ¬ AreSpelled ids (texts words.now))
        (λ ids. AreSpelled ids.items (texts words.now))) }
{
    if words.is_empty() {
        return Ok(None);
    }
    let mut ids = Vec::new(alloc);
    for word in words {
        let Some(id) = Id::read(word) else {
            return Ok(None);
        };
        push_id(&mut ids, id)?;
    }
    Ok(Some(ids))
}

/// Appends an id.
fn push_id<A: Allocator>(ids: &mut Vec<Id, A>, id: Id) -> Result<(), NoMemory>
    ensures items { OnOk result (ids.new.items ≡ ids.old.items ++ id ∷ []) }
    ensures small { id.0 < 2 ^ 64 }
{
    ids.push(id)?;
    Ok(())
}

/// The first of some ids that is not open.
pub fn first_shut<A: Allocator>(table: &Table<A>, ids: &[Id]) -> Option<Id>
    ensures { result ≡ first_shut table.now.lines ids.now }
{
    for id in ids {
        if !table.is_open(*id) {
            return Some(*id);
        }
    }
    None
}

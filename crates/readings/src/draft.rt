//! What the words of an `expect` have said so far.
ghost use Rattle.std.specs.Prelude.{◌≡◌, ◌↔◌, ◌++◌, map, true, false, None, Some, Ok, Err, IfOk, OnOk, IfErr, IfSome};
ghost use Rattle.choices.specs.Branches.{pair, Sought};
ghost use Rattle.readings.specs.Drafts.{blank, with_ids, with_seconds, with_flag, with_branch, wanted_of};
ghost use Rattle.choices.specs.Leads.{Leads};
ghost use Rattle.searches.specs.Lead.{sought_by};
ghost use Rattle.readings.specs.Misreads.{flaw_of};
ghost use Rattle.readings.specs.Reads as reads;
ghost use Rattle.readings.specs.Reads.{alone, at_end, awaited_by, branch_by, branch_flaw, ids_for, in_front, is_too_long, named_at};
ghost use Rattle.choices.specs.Views.{awaited_of};

use crate::branch_error::BranchError;
use crate::branches::Branches;
use crate::sign::{Keyword, Mark};
use acts::{Id, NoMemory};
use choices::{Awaited, Branch, Flags, Pair};
use patterns::{Pattern, PatternError};
use searches::{Lead, Style};
use std::alloc::Allocator;
use std::marker::Model;
use std::rc::Rc;
use tcltext::Value;

/// The flags of a branch before which no flag stands.
const NO_FLAGS: Flags = Flags {
    stays: false,
    tells_places: false,
    folds: false,
};

/// What a branch waits for, as its words say it.
#[derive(Clone, Copy, Debug, PartialEq, Eq)]
pub(crate) enum Wanted<'a> {
    /// A text that is sought.
    Seeks(Style, &'a [u8]),
    /// What a keyword names.
    Names(Keyword),
}

/// What the words so far say, the ids of the last `-i`, and the flags before the next branch.
#[derive(Drop)]
pub(crate) struct Draft<A: Allocator> {
    named: Vec<Id, A>,
    pairs: Vec<Pair<A>, A>,
    timeout: Option<i64>,
    ids: Option<Vec<Id, A>>,
    flags: Flags,
}

impl<A: Allocator> Model for Draft<A> {
    ghost use Rattle.choices.specs.Branches.{branches};
    ghost use Rattle.readings.specs.Drafts.{Draft as Plain, draft, listed};

    ghost Value = { Plain };

    ghost view = { λ d.
        draft (branches d.named.items d.pairs.items d.timeout) (listed d.ids) d.flags };
}

impl<A: Allocator + Copy> Draft<A> {
    /// The draft before any word, where nothing is said.
    pub(crate) fn new(alloc: A) -> Draft<A>
        ensures { result ≡ blank }
    {
        Draft {
            named: Vec::new(alloc),
            pairs: Vec::new(alloc),
            timeout: None,
            ids: None,
            flags: NO_FLAGS,
        }
    }

    /// Adds a list of ids that was read after `-i`; the branches after it are for these ids.
    pub(crate) fn add_ids(&mut self, ids: Vec<Id, A>) -> Result<(), NoMemory>
        ensures { OnOk result (self.new ≡ with_ids ids.items self.old) }
    {
        push_ids(&mut self.named, &ids)?;
        self.ids = Some(ids);
        Ok(())
    }

    /// Sets the seconds that were read after `-timeout`.
    pub(crate) fn set_timeout(&mut self, seconds: i64)
        ensures { self.new ≡ with_seconds seconds self.old }
    {
        self.timeout = Some(seconds);
    }

    /// Sets a flag of the next branch that was read.
    pub(crate) fn mark(&mut self, mark: Mark)
        ensures { self.new ≡ with_flag mark self.old }
    {
        match mark {
            Mark::Stays => self.flags.stays = true,
            Mark::TellsPlaces => self.flags.tells_places = true,
            Mark::Folds => self.flags.folds = true,
        }
    }

    /// Adds a branch that was read, for the ids of the last `-i`, or else for the id in force,
    /// `current`.
    pub(crate) fn add_branch<'a>(
        &mut self,
        alloc: A,
        current: Option<Id>,
        wanted: Wanted<'a>,
        body: Value<A>,
    ) -> Result<(), BranchError<'a>>
        ensures ok { OnOk result
            (branch_flaw (ids_for current self.old.ids) (wanted_of wanted.entry) ≡ None) }
        ensures new { OnOk result
            (self.new ≡ with_branch current (wanted_of wanted.entry) body self.old) }
        ensures flaw { IfErr result (λ e. IfSome (flaw_of e) (λ flaw.
            branch_flaw (ids_for current self.old.ids) (wanted_of wanted.entry) ≡ Some flaw)) }
    {
        let Some(ids) = &self.ids else {
            return self.add_current(alloc, current, wanted, body);
        };
        let branch = shared_branch(alloc, self.flags, wanted, body)?;
        push_for_each(&mut self.pairs, ids, &branch)?;
        self.flags = NO_FLAGS;
        Ok(())
    }

    /// Adds a branch that was read for the id in force, where no `-i` was read.
    fn add_current<'a>(
        &mut self,
        alloc: A,
        current: Option<Id>,
        wanted: Wanted<'a>,
        body: Value<A>,
    ) -> Result<(), BranchError<'a>>
        requires { self.old.ids ≡ None }
        ensures ok { OnOk result (branch_flaw (alone current) (wanted_of wanted.entry) ≡ None) }
        ensures new { OnOk result
            (self.new ≡ with_branch current (wanted_of wanted.entry) body self.old) }
        ensures flaw { IfErr result (λ e. IfSome (flaw_of e) (λ flaw.
            branch_flaw (alone current) (wanted_of wanted.entry) ≡ Some flaw)) }
    {
        let Some(id) = current else {
            return Err(BranchError::NoneInForce);
        };
        let branch = shared_branch(alloc, self.flags, wanted, body)?;
        push_ids(&mut self.named, &[id])?;
        push_for_each(&mut self.pairs, &[id], &branch)?;
        self.flags = NO_FLAGS;
        Ok(())
    }

    /// The branches that the words say, once all words are read. Where they name no id, the id in
    /// force is named.
    pub(crate) fn finish<'a>(mut self, current: Option<Id>) -> Result<Branches<A>, BranchError<'a>>
        ensures branches { IfOk result (λ b.
            named_at current (in_front self.said (at_end self.flags)) ≡ Ok b) }
        ensures flaw { IfErr result (λ e. IfSome (flaw_of e) (λ flaw.
            named_at current (in_front self.said (at_end self.flags)) ≡ Err flaw)) }
    {
        if self.flags.stays || self.flags.tells_places || self.flags.folds {
            return Err(BranchError::NoPattern);
        }
        if self.named.is_empty() {
            let Some(id) = current else {
                return Err(BranchError::NoneInForce);
            };
            push_ids(&mut self.named, &[id])?;
        }
        Ok(Branches::of(self.named, self.pairs, self.timeout))
    }
}

/// A branch of these flags and this body, to be shared by pairs.
fn shared_branch<'a, A: Allocator + Copy>(
    alloc: A,
    flags: Flags,
    wanted: Wanted<'a>,
    body: Value<A>,
) -> Result<Rc<Branch<A>, A>, BranchError<'a>>
    ensures branch { IfOk result (λ b. b.value ≡ branch_by flags (wanted_of wanted.entry) body) }
    ensures short { OnOk result (is_too_long (wanted_of wanted.entry) ≡ false) }
    ensures flaw { IfErr result (λ e. IfSome (flaw_of e) (λ flaw.
        (flaw ≡ reads.TooLong) × (is_too_long (wanted_of wanted.entry) ≡ true))) }
{
    let awaited = awaited_by(alloc, flags.folds, wanted)?;
    let lead = lead_by(alloc, flags.folds, wanted, &awaited)?;
    let branch = shared(alloc, Branch::new(awaited, flags, body).led(lead))?;
    Ok(branch)
}

/// A branch behind a counted pointer.
fn shared<A: Allocator>(alloc: A, branch: Branch<A>) -> Result<Rc<Branch<A>, A>, NoMemory>
    ensures { IfOk result (λ shared. shared.value ≡ branch) }
{
    Ok(Rc::new(alloc, branch)?)
}

/// What a branch waits for; `folds` is whether the letters of the window are folded where it seeks
/// a text.
fn awaited_by<A: Allocator + Copy>(
    alloc: A,
    folds: bool,
    wanted: Wanted<'_>,
) -> Result<Awaited<A>, PatternError>
    ensures awaited { IfOk result
        (λ a. awaited_of a ≡ awaited_by folds (wanted_of wanted.entry)) }
    ensures too_long { (result ≡ Err PatternError.TooLong)
        ↔ (is_too_long (wanted_of wanted.entry) ≡ true) }
{
    match wanted {
        Wanted::Seeks(Style::Glob, text) => Ok(sought_by(folds, Pattern::glob(alloc, text)?)),
        Wanted::Seeks(Style::Exact, text) => Ok(sought_by(folds, Pattern::exact(alloc, text)?)),
        Wanted::Names(Keyword::FullBuffer) => Ok(Awaited::FullBuffer),
        Wanted::Names(Keyword::Eof) => Ok(Awaited::Eof),
        Wanted::Names(Keyword::Timeout) => Ok(Awaited::Timeout),
        Wanted::Names(Keyword::Default) => Ok(Awaited::Default),
    }
}

/// What is sought first, where a branch seeks a text.
fn lead_by<A: Allocator + Copy>(
    alloc: A,
    folds: bool,
    wanted: Wanted<'_>,
    awaited: &Awaited<A>,
) -> Result<Option<Lead<A>>, NoMemory>
    requires { awaited_of awaited.now ≡ awaited_by folds (wanted_of wanted) }
    ensures { IfOk result (Leads (awaited_of awaited.now)) }
{
    let Awaited::Sought(pattern) = awaited else {
        return Ok(None);
    };
    let Wanted::Seeks(style, text) = wanted else {
        return Ok(None);
    };
    let lead = Lead::of(alloc, style, folds, text, pattern)?;
    Ok(Some(lead))
}

/// A pattern that is sought, with the letters of the window folded or not (expect(1), `-nocase`).
fn sought_by<A: Allocator>(folds: bool, pattern: Pattern<A>) -> Awaited<A>
    ensures { awaited_of result ≡ Sought (sought_by folds pattern) }
{
    if folds {
        Awaited::Sought(pattern.fold())
    } else {
        Awaited::Sought(pattern)
    }
}

/// Appends a pair with the branch for each of the ids.
fn push_for_each<A: Allocator>(
    pairs: &mut Vec<Pair<A>, A>,
    ids: &[Id],
    branch: &Rc<Branch<A>, A>,
) -> Result<(), NoMemory>
    ensures { OnOk result (pairs.new.items
        ≡ pairs.old.items ++ map (λ i. pair i branch.now.value) ids.now) }
{
    for id in ids {
        pairs.push(Pair::new(*id, branch.clone()?))?;
    }
    Ok(())
}

/// Appends more ids.
///
/// # Errors
/// `NoMemory`.
pub fn push_ids<A: Allocator>(ids: &mut Vec<Id, A>, more: &[Id]) -> Result<(), NoMemory>
    ensures { OnOk result (ids.new.items ≡ ids.old.items ++ more.now) }
{
    ids.reserve(more.len())?;
    for id in more {
        ids.push(*id)?;
    }
    Ok(())
}

//! Branches of `expect`, and the pairs of an id and a branch among which it chooses.

ghost use Rattle.std.specs.Prelude.{◌≡◌, IfOk, IfSome};
ghost use Rattle.choices.specs.Choice.{takes_full, takes_end, takes_timeout};
ghost use Rattle.choices.specs.Branches.{pair, Sought};
ghost use Rattle.choices.specs.Leads.{Leads};
ghost use Rattle.searches.specs.Lead.{IsLead};
ghost use Rattle.choices.specs.Views.{awaited_of, branch_of};
ghost use Rattle.patterns.specs.Item.{Reading};

use acts::{Id, NoMemory};
use patterns::Pattern;
use searches::Lead;
use std::alloc::Allocator;
use std::marker::Model;
use std::rc::Rc;
use tcltext::Value;

/// What a branch waits for (expect(1), expect).
#[derive(Drop)]
pub enum Awaited<A: Allocator> {
    /// That the pattern is found in the window.
    Sought(Pattern<A>),
    /// That the buffer holds as many bytes as it may.
    FullBuffer,
    /// That nothing more comes from the id.
    Eof,
    /// That the timer runs out.
    Timeout,
    /// An end or a timeout.
    Default,
}

impl<A: Allocator> Awaited<A> {
    /// Whether the branch waits for a full buffer.
    pub fn takes_full(&self) -> bool
        ensures { result ≡ takes_full (awaited_of self.now) }
    {
        matches!(self, Awaited::FullBuffer)
    }

    /// Whether the branch waits for an end (`eof` or `default`).
    pub fn takes_end(&self) -> bool
        ensures { result ≡ takes_end (awaited_of self.now) }
    {
        matches!(self, Awaited::Eof | Awaited::Default)
    }

    /// Whether the branch waits for a timeout (`timeout` or `default`).
    pub fn takes_timeout(&self) -> bool
        ensures { result ≡ takes_timeout (awaited_of self.now) }
    {
        matches!(self, Awaited::Timeout | Awaited::Default)
    }
}

/// The flags of a branch (expect(1), expect).
#[derive(Clone, Copy, Debug, PartialEq, Eq)]
pub struct Flags {
    /// The bytes that its pattern finds stay in the buffer (`-notransfer`).
    pub stays: bool,
    /// The places of a match are reported (`-indices`).
    pub tells_places: bool,
    /// Capital letters of the window count as small ones (`-nocase`).
    pub folds: bool,
}

/// A branch of `expect`: what it waits for, and the script that runs then (expect(1), expect).
pub struct Branch<A: Allocator> {
    awaited: Awaited<A>,
    /// What is sought first, where the branch seeks a pattern.
    lead: Option<Lead<A>>,
    flags: Flags,
    body: Value<A>,
}

impl<A: Allocator> Drop for Branch<A> {
    fn drop(self) {
        let Branch {
            awaited: _,
            lead: _,
            flags: _,
            body: _,
        } = self;
    }
}

impl<A: Allocator> Model for Branch<A> {
    ghost use Rattle.choices.specs.Branches.{Branch as Plain};

    ghost Value = { Plain };

    ghost use Rattle.choices.specs.Views.{branch_of};

    ghost view = { λ b. branch_of b.awaited b.flags b.body };

    ghost use Rattle.choices.specs.Views.{awaited_of};
    ghost use Rattle.choices.specs.Leads.{Leads};

    ghost invariant = { λ b. Leads (awaited_of b.awaited) b.lead };
}

impl<A: Allocator> Branch<A> {
    /// A branch by its parts: what it waits for, its flags and its body.
    pub fn new(awaited: Awaited<A>, flags: Flags, body: Value<A>) -> Branch<A>
        ensures { result ≡ branch_of awaited flags body }
    {
        Branch {
            awaited,
            lead: None,
            flags,
            body,
        }
    }

    /// The same branch, with what is sought first of its pattern.
    pub fn led(self, lead: Option<Lead<A>>) -> Branch<A>
        requires { Leads self.awaited lead }
        ensures { result ≡ self }
    {
        let Branch {
            awaited,
            lead: _,
            flags,
            body,
        } = self;
        Branch {
            awaited,
            lead,
            flags,
            body,
        }
    }
}

/// A branch for one id (expect(1), expect, `-i`).
pub struct Pair<A: Allocator> {
    pub(crate) id: Id,
    pub(crate) branch: Rc<Branch<A>, A>,
}

impl<A: Allocator> Drop for Pair<A> {
    fn drop(self) {
        let Pair { id: _, branch: _ } = self;
    }
}

impl<A: Allocator> Model for Pair<A> {
    ghost use Rattle.choices.specs.Branches.{Pair as Plain, pair};

    ghost Value = { Plain };

    ghost view = { λ p. pair p.id p.branch.value };
}

impl<A: Allocator> Pair<A> {
    /// A branch for an id.
    pub fn new(id: Id, branch: Rc<Branch<A>, A>) -> Pair<A>
        ensures { result ≡ pair id branch.value }
    {
        Pair { id, branch }
    }

    /// Whether the branch of another pair is the same one, and not only one like it. No contract
    /// speaks of it: who watches a run tells by it which words a branch was said by.
    pub fn shares_branch(&self, other: &Pair<A>) -> bool {
        Rc::ptr_eq(&self.branch, &other.branch)
    }

    /// The same pair once more; its branch is not copied. Memory is asked for only for the count of
    /// its holders.
    ///
    /// # Errors
    /// `NoMemory`.
    pub fn share(&self) -> Result<Pair<A>, NoMemory>
        ensures { IfOk result (λ same. same ≡ self.now) }
    {
        let branch = self.branch.clone()?;
        Ok(Pair {
            id: self.id,
            branch,
        })
    }

    /// The id that the branch is for.
    pub fn id(&self) -> Id
        ensures { result ≡ self.now.id }
    {
        self.id
    }

    /// What its branch waits for.
    pub fn awaited(&self) -> &Awaited<A>
        ensures { awaited_of result.now ≡ self.now.branch.awaited }
    {
        &self.branch.awaited
    }

    /// What is sought first of its pattern, where that is known.
    pub(crate) fn lead(&self) -> Option<&Lead<A>>
        ensures { (p : Reading) → self.now.branch.awaited ≡ Sought p →
            IfSome result (λ lead. IsLead p lead.now) }
    {
        self.branch.lead.as_ref()
    }

    /// Whether the bytes that its branch finds stay in the buffer (`-notransfer`).
    pub fn stays(&self) -> bool
        ensures { result ≡ self.now.branch.flags.stays }
    {
        self.branch.flags.stays
    }

    /// Whether the places of a match are reported (`-indices`).
    pub fn tells_places(&self) -> bool
        ensures { result ≡ self.now.branch.flags.tells_places }
    {
        self.branch.flags.tells_places
    }

    /// The script of its branch.
    pub fn body(&self) -> &Value<A>
        ensures { result.now ≡ self.now.branch.body }
    {
        &self.branch.body
    }
}

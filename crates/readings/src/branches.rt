//! The branches that the words of an `expect` say.
ghost use Rattle.std.specs.Prelude.{◌≡◌};
ghost use Rattle.choices.specs.Branches.{branches};

use acts::Id;
use choices::Pair;
use std::alloc::Allocator;
use std::marker::Model;

/// What the words of `expect`, `expect_before` or `expect_after` say: the ids that they name, a
/// pair for each branch and each of its ids, and the seconds of the timer (expect(1), expect).
pub struct Branches<A: Allocator> {
    named: Vec<Id, A>,
    pairs: Vec<Pair<A>, A>,
    timeout: Option<i64>,
}

impl<A: Allocator> Drop for Branches<A> {
    fn drop(self) {
        let Branches {
            named: _,
            pairs: _,
            timeout: _,
        } = self;
    }
}

impl<A: Allocator> Model for Branches<A> {
    ghost use Rattle.choices.specs.Branches.{Branches as Plain, branches};

    ghost Value = { Plain };

    ghost view = { λ b. branches b.named.items b.pairs.items b.timeout };
}

impl<A: Allocator> Branches<A> {
    /// Branches by their parts.
    pub(crate) fn of(named: Vec<Id, A>, pairs: Vec<Pair<A>, A>, timeout: Option<i64>) -> Branches<A>
        ensures { result ≡ branches named.items pairs.items timeout }
    {
        Branches {
            named,
            pairs,
            timeout,
        }
    }

    /// The ids that are named, in the order of their mentions.
    pub fn named(&self) -> &[Id]
        ensures { result.now ≡ self.now.named }
    {
        &self.named
    }

    /// The pairs, in order.
    pub fn pairs(&self) -> &[Pair<A>]
        ensures { result.now ≡ self.now.pairs }
    {
        &self.pairs
    }

    /// The seconds of the last `-timeout`, if there is one.
    pub fn timeout(&self) -> Option<i64>
        ensures { result ≡ self.now.timeout }
    {
        self.timeout
    }
}

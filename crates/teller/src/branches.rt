//! The branches among which an `expect` chooses, with the words that said them.

use crate::said::{Said, branches_said};
use acts::{Id, NoMemory};
use dialog::{Keyword, Pair};
use std::alloc::Allocator;
use std::rc::Rc;
use story::{Sought, Style};
use tcltext::Value;

/// What a branch waits for, as its words say it.
#[derive(Drop)]
pub(crate) enum Wanted<A: Allocator> {
    /// A pattern, whether letters are folded, and whether it is the only word after `-i` and its
    /// list of ids.
    Pattern {
        style: Style,
        text: Vec<u8, A>,
        folds: bool,
        is_lone: bool,
    },
    /// A keyword.
    Keyword(Keyword),
}

/// A branch for an id, with its words where they are known.
#[derive(Drop)]
pub(crate) struct Branch<A: Allocator> {
    pub id: Id,
    pub wanted: Option<Rc<Wanted<A>, A>>,
}

/// A pair whose words are known.
#[derive(Drop)]
struct Known<A: Allocator> {
    pair: Pair<A>,
    wanted: Rc<Wanted<A>, A>,
}

/// The words of the branches that stand, of those among which the commands in progress choose, and
/// of the command that began last.
#[derive(Drop)]
pub(crate) struct Branches<A: Allocator> {
    said: Vec<Rc<Wanted<A>, A>, A>,
    own: Vec<Known<A>, A>,
    standing: Vec<Known<A>, A>,
}

impl<A: Allocator> Branch<A> {
    /// What is sought, where it is a pattern whose words are known.
    pub(crate) fn sought(&self) -> Option<Sought<'_>> {
        match self.wanted.as_deref()? {
            Wanted::Pattern {
                style,
                text,
                folds,
                is_lone,
            } => Some(Sought {
                id: self.id,
                style: *style,
                text,
                folds: *folds,
                is_lone: *is_lone,
            }),
            Wanted::Keyword(_) => None,
        }
    }

    /// The keyword, where it is one.
    pub(crate) fn keyword(&self) -> Option<Keyword> {
        match self.wanted.as_deref()? {
            Wanted::Pattern { .. } => None,
            Wanted::Keyword(keyword) => Some(*keyword),
        }
    }
}

impl<A: Allocator + Copy> Branches<A> {
    /// No branches. Takes no memory.
    pub(crate) fn new(alloc: A) -> Branches<A> {
        Branches {
            said: Vec::new(alloc),
            own: Vec::new(alloc),
            standing: Vec::new(alloc),
        }
    }

    /// Forgets the words of branches that do not stand: no `expect` is in progress.
    pub(crate) fn clear(&mut self) {
        self.own.clear();
    }

    /// Reads the words of a command that says branches; `standing` is whether they will stand.
    ///
    /// # Errors
    /// `NoMemory`.
    pub(crate) fn read(
        &mut self,
        alloc: A,
        words: &[Value<A>],
        standing: bool,
    ) -> Result<(), NoMemory> {
        self.said.clear();
        for said in branches_said(alloc, words, standing)?.iter() {
            let wanted = wanted_by(alloc, *said)?;
            self.said.push(Rc::new(alloc, wanted)?)?;
        }
        Ok(())
    }

    /// The branches of pairs, in order. Pairs that were not seen yet are those that the command
    /// says that began last.
    ///
    /// # Errors
    /// `NoMemory`.
    pub(crate) fn of_pairs(
        &mut self,
        alloc: A,
        pairs: &[Pair<A>],
    ) -> Result<Vec<Branch<A>, A>, NoMemory> {
        let mut branches = Vec::new(alloc);
        let mut next = 0;
        for pair in pairs {
            if !self.knows(pair) {
                learn(&mut self.own, &self.said, next, pair)?;
                next = next.saturating_add(1);
            }
            let wanted = self.wanted(pair)?;
            branches.push(Branch {
                id: pair.id(),
                wanted,
            })?;
        }
        Ok(branches)
    }

    /// Takes the branches of the command that began last for those of the pairs that stand and were
    /// not seen yet.
    ///
    /// # Errors
    /// `NoMemory`.
    pub(crate) fn stand(&mut self, before: &[Pair<A>], after: &[Pair<A>]) -> Result<(), NoMemory> {
        self.standing.retain(|known| holds(before, &known.pair) || holds(after, &known.pair));
        let mut next = 0;
        for pair in before.iter().chain(after) {
            if !self.knows(pair) {
                learn(&mut self.standing, &self.said, next, pair)?;
                next = next.saturating_add(1);
            }
        }
        Ok(())
    }

    /// Whether the words of a pair are known.
    fn knows(&self, pair: &Pair<A>) -> bool {
        known_in(&self.standing, pair).is_some() || known_in(&self.own, pair).is_some()
    }

    /// The words of a pair, where they are known.
    fn wanted(&self, pair: &Pair<A>) -> Result<Option<Rc<Wanted<A>, A>>, NoMemory> {
        match known_in(&self.standing, pair).or(known_in(&self.own, pair)) {
            Some(known) => Ok(Some(known.wanted.clone()?)),
            None => Ok(None),
        }
    }
}

/// Notes the words of a pair, those of this place, where there are as many.
fn learn<A: Allocator>(
    known: &mut Vec<Known<A>, A>,
    said: &[Rc<Wanted<A>, A>],
    place: usize,
    pair: &Pair<A>,
) -> Result<(), NoMemory> {
    if let Some(wanted) = said.get(place) {
        known.push(Known {
            pair: pair.share()?,
            wanted: wanted.clone()?,
        })?;
    }
    Ok(())
}

/// A pair with the same branch.
fn known_in<'a, A: Allocator>(known: &'a [Known<A>], pair: &Pair<A>) -> Option<&'a Known<A>> {
    known.iter().find(|one| one.pair.shares_branch(pair))
}

/// Whether one of these pairs has the same branch.
fn holds<A: Allocator>(pairs: &[Pair<A>], pair: &Pair<A>) -> bool {
    pairs.iter().any(|one| one.shares_branch(pair))
}

/// What a branch waits for, with a text of its own.
fn wanted_by<A: Allocator + Copy>(alloc: A, said: Said<'_>) -> Result<Wanted<A>, NoMemory> {
    match said {
        Said::Pattern {
            style,
            text,
            folds,
            is_lone,
        } => Ok(Wanted::Pattern {
            style: style_of(style),
            text: Vec::from_slice(alloc, text)?,
            folds,
            is_lone,
        }),
        Said::Keyword(keyword) => Ok(Wanted::Keyword(keyword)),
    }
}

/// How a text is sought, in the words of stories.
fn style_of(style: dialog::Style) -> Style {
    match style {
        dialog::Style::Glob => Style::Glob,
        dialog::Style::Exact => Style::Exact,
    }
}

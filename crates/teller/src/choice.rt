//! The choices of `expect`.

use crate::branches::Branch;
use crate::telling::{Detail, Teller};
use crate::wait::{Over, Wait, awaited_in};
use acts::decimal::push_decimal;
use acts::{Id, NoMemory};
use dialog::{Keyword, Pair};
use expects::turn::Turn;
use patterns::Found;
use state::State;
use std::alloc::Allocator;
use story::{Difference, Ending, Vain, Why, push_line, push_sought, push_why, why_in_vain};

impl<A: Allocator + Copy> Teller<A> {
    /// The wait of a turn that begins.
    ///
    /// # Errors
    /// `NoMemory`.
    pub(crate) fn wait_of(
        &mut self,
        state: &State<A>,
        turn: &Turn<A>,
    ) -> Result<Wait<A>, NoMemory> {
        let spots = self.in_progress()?;
        Ok(Wait {
            spot: spots.last().copied(),
            branches: self.branches.of_pairs(self.alloc, turn.effective.pairs())?,
            awaited: awaited_in(self.alloc, turn.effective.ids(), &state.ids.table)?,
            over: None,
        })
    }

    /// Tells what a turn has chosen, whose body stands on top of the frames, and remembers what the
    /// choice consumed.
    ///
    /// # Errors
    /// `NoMemory`.
    pub(crate) fn choose(
        &mut self,
        out: &mut Vec<u8, A>,
        state: &State<A>,
        turn: &Turn<A>,
        detail: Detail,
    ) -> Result<(), NoMemory> {
        if self.wait.is_none() {
            let wait = self.wait_of(state, turn)?;
            if detail == Detail::Whole {
                self.tell_command(out, wait.spot, b"looks at what has come")?;
            }
            self.wait = Some(wait);
        }
        match state.ids.table.last_found() {
            Some((place, found)) => {
                self.choose_pattern(out, turn.effective.pairs(), place, found, detail)
            }
            None => self.choose_keyword(out, detail),
        }
    }

    /// Tells that the pattern of the pair at this place was chosen, and where it was found.
    fn choose_pattern(
        &mut self,
        out: &mut Vec<u8, A>,
        pairs: &[Pair<A>],
        place: usize,
        found: Found,
        detail: Detail,
    ) -> Result<(), NoMemory> {
        let Some(wait) = self.wait.take() else {
            return Ok(());
        };
        let Some(pair) = pairs.get(place) else {
            return Ok(());
        };
        if detail == Detail::Whole {
            let branches = self.branches.of_pairs(self.alloc, pairs)?;
            self.push_found(out, branches.get(place), found, pair.stays())?;
            self.push_others(out, &wait, &branches, place)?;
        }
        if pair.stays() {
            return Ok(());
        }
        self.heard.consume(pair.id(), found.end, wait.cause())
    }

    /// Writes which patterns stand in the window as well as that of the branch at this place.
    fn push_others(
        &self,
        out: &mut Vec<u8, A>,
        wait: &Wait<A>,
        branches: &[Branch<A>],
        place: usize,
    ) -> Result<(), NoMemory> {
        for (at, branch) in branches.iter().enumerate() {
            if at != place {
                self.push_taken(out, wait, branch)?;
            }
        }
        Ok(())
    }

    /// Writes where a pattern was found, and how much was consumed.
    fn push_found(
        &self,
        out: &mut Vec<u8, A>,
        branch: Option<&Branch<A>>,
        found: Found,
        stays: bool,
    ) -> Result<(), NoMemory> {
        let mut what = Vec::new(self.alloc);
        if let Some(sought) = branch.and_then(|one| one.sought()) {
            push_sought(&mut what, &sought)?;
        }
        let mut detail = Vec::new(self.alloc);
        detail.extend_from_slice(b"found at ")?;
        push_decimal(&mut detail, found.start as u64)?;
        detail.extend_from_slice(b" to ")?;
        push_decimal(&mut detail, found.end as u64)?;
        detail.extend_from_slice(b"; ")?;
        if stays {
            detail.extend_from_slice(b"nothing consumed (-notransfer)")?;
        } else {
            push_decimal(&mut detail, found.end as u64)?;
            detail.extend_from_slice(b" bytes consumed")?;
        }
        push_line(out, b"", &what, &detail)
    }

    /// Writes of another branch that its pattern stands in the window as well, if it does.
    fn push_taken(
        &self,
        out: &mut Vec<u8, A>,
        wait: &Wait<A>,
        branch: &Branch<A>,
    ) -> Result<(), NoMemory> {
        let Some(sought) = branch.sought() else {
            return Ok(());
        };
        let vain = Vain {
            sought,
            window: self.heard.window(sought.id),
            max: wait.max(sought.id),
            ending: Ending::Other,
        };
        let found = why_in_vain(self.alloc, &self.heard, &vain)?;
        let taken = matches!(
            found,
            Why::Stands {
                but: Difference::Taken,
                ..
            }
        );
        if !taken {
            return Ok(());
        }
        let mut what = Vec::new(self.alloc);
        push_sought(&mut what, &sought)?;
        let mut detail = Vec::new(self.alloc);
        push_why(&mut detail, &found, &vain, b"")?;
        push_line(out, b"", &what, &detail)
    }

    /// Tells which keyword was chosen, and why the patterns were not; all that the id has is
    /// consumed, where it was chosen for an end or a full buffer.
    fn choose_keyword(&mut self, out: &mut Vec<u8, A>, detail: Detail) -> Result<(), NoMemory> {
        let Some(wait) = &mut self.wait else {
            return Ok(());
        };
        let cause = wait.cause();
        if wait.over.is_none() {
            wait.over = full_id(wait).map(Over::Full);
        }
        let (consumed, keyword) = match wait.over {
            Some(over) => (over.id(), keyword_for(wait, over)),
            None => (None, Some(Keyword::FullBuffer)),
        };
        self.tell_vain(out, keyword, detail)?;
        match consumed {
            Some(id) => {
                let count = self.heard.window(id).len();
                self.heard.consume(id, count, cause)
            }
            None => Ok(()),
        }
    }
}

/// The keyword of the branch that is chosen where a wait is over so.
pub(crate) fn keyword_for<A: Allocator>(wait: &Wait<A>, over: Over) -> Option<Keyword> {
    match over {
        Over::Time => first_named(wait, None, Keyword::Timeout),
        Over::End(id) => first_named(wait, Some(id), Keyword::Eof),
        Over::Full(_) => Some(Keyword::FullBuffer),
    }
}

/// The keyword of the first branch that takes what this keyword names, for this id where there is
/// one: that keyword or `default`.
fn first_named<A: Allocator>(wait: &Wait<A>, id: Option<Id>, keyword: Keyword) -> Option<Keyword> {
    wait.branches
        .iter()
        .filter(|branch| id.is_none() || id == Some(branch.id))
        .filter_map(|branch| branch.keyword())
        .find(|one| *one == keyword || *one == Keyword::Default)
}

/// The id of the first branch that waits for a full buffer.
fn full_id<A: Allocator>(wait: &Wait<A>) -> Option<Id> {
    wait.branches
        .iter()
        .find(|branch| branch.keyword() == Some(Keyword::FullBuffer))
        .map(|branch| branch.id)
}

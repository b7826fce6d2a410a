//! Waits that are over without the pattern that a branch sought, and why.

ghost use Rattle.std.specs.Prelude.{◌≡◌, ◌++◌, ℕ, List, [], IfOk, OnOk};
ghost use Rattle.acts.specs.Id.{id_text};
ghost use Rattle.story.specs.Line.{line};
ghost use Rattle.teller.specs.Told.{over_text};

use crate::branches::Branch;
use crate::spots::Spot;
use crate::telling::{Detail, Teller};
use crate::told::push_id;
use crate::wait::{Over, Wait};
use acts::{Id, NoMemory};
use dialog::Keyword;
use std::alloc::Allocator;
use std::rc::Rc;
use story::{Cause, Sought, Vain, came_later, push_line, push_sought, push_why, why_in_vain};

/// How many branches are looked for once more at the end of a run at most.
const MOST_LATER: usize = 64;

/// A branch of a wait that was over by time: its pattern may come later.
#[derive(Drop)]
pub(crate) struct Later<A: Allocator> {
    spot: Option<Spot>,
    branch: Branch<A>,
    /// How many bytes had come from its id when the wait was over, and how many of them its buffer
    /// held.
    came: u64,
    held: usize,
}

/// What is known of waits that sought in vain.
#[derive(Drop)]
pub(crate) struct Vains<A: Allocator> {
    later: Vec<Later<A>, A>,
    /// The lines of the last one, where they are told at the end of the run.
    last: Vec<u8, A>,
}

impl<A: Allocator + Copy> Vains<A> {
    /// No wait yet. Takes no memory.
    pub(crate) fn new(alloc: A) -> Vains<A> {
        Vains {
            later: Vec::new(alloc),
            last: Vec::new(alloc),
        }
    }
}

impl<A: Allocator + Copy> Teller<A> {
    /// Tells that the wait in progress is over, where its last answer has not told so, and why each
    /// of its patterns was not found. Where a keyword was chosen, it says so. Where only what led
    /// to the end is told, that is kept for then.
    ///
    /// # Errors
    /// `NoMemory`.
    pub(crate) fn tell_vain(
        &mut self,
        out: &mut Vec<u8, A>,
        chosen: Option<Keyword>,
        detail: Detail,
    ) -> Result<(), NoMemory> {
        let Some(wait) = self.wait.take() else {
            return Ok(());
        };
        match detail {
            Detail::Whole => {
                if !wait.is_told() {
                    push_over(out, wait.over, chosen)?;
                }
                self.push_vains(out, &wait)?;
            }
            Detail::Brief => self.vains.last = self.last_vain(&wait, chosen)?,
        }
        if let Some(Over::Time) = wait.over {
            self.look_later(wait)?;
        }
        Ok(())
    }

    /// The lines of a wait that sought in vain, as they are told at the end of the run.
    fn last_vain(&self, wait: &Wait<A>, chosen: Option<Keyword>) -> Result<Vec<u8, A>, NoMemory> {
        let mut lines = Vec::new(self.alloc);
        self.tell_command(&mut lines, wait.spot, b"sought in vain")?;
        push_over(&mut lines, wait.over, chosen)?;
        self.push_vains(&mut lines, wait)?;
        Ok(lines)
    }

    /// Writes that the patterns of a wait were not found, and why.
    fn push_vains(&self, out: &mut Vec<u8, A>, wait: &Wait<A>) -> Result<(), NoMemory> {
        for branch in wait.branches.iter() {
            if let Some(sought) = branch.sought() {
                self.push_vain(out, wait, sought)?;
            }
        }
        Ok(())
    }

    /// Writes that a pattern was not found, and why.
    fn push_vain(
        &self,
        out: &mut Vec<u8, A>,
        wait: &Wait<A>,
        sought: Sought<'_>,
    ) -> Result<(), NoMemory> {
        let vain = Vain {
            sought,
            window: self.heard.window(sought.id),
            max: wait.max(sought.id),
            ending: wait.ending(sought.id),
        };
        let found = why_in_vain(self.alloc, &self.heard, &vain)?;
        let mut what = Vec::new(self.alloc);
        push_sought(&mut what, &sought)?;
        push_line(out, b"", &what, b"not found")?;
        let mut detail = Vec::new(self.alloc);
        push_why(&mut detail, &found, &vain, &self.place_of(found.cause())?)?;
        push_line(out, b"", b"why", &detail)
    }

    /// How the place of a command is written that the history names.
    pub(crate) fn place_of(&self, cause: Option<Cause>) -> Result<Vec<u8, A>, NoMemory> {
        let mut place = Vec::new(self.alloc);
        match (cause, &self.lines) {
            (Some(Cause(start)), Some(lines)) if start < self.script.len() as u64 => {
                lines.push(&mut place, start as usize)?;
            }
            (Some(_) | None, Some(_) | None) => place.extend_from_slice(b"another command")?,
        }
        Ok(place)
    }

    /// Remembers the patterns of a wait, to be looked for once more at the end of the run.
    fn look_later(&mut self, wait: Wait<A>) -> Result<(), NoMemory> {
        let Wait {
            spot,
            branches,
            awaited: _,
            over: _,
        } = wait;
        for branch in branches {
            if self.vains.later.len() < MOST_LATER && branch.sought().is_some() {
                let came = self.heard.came(branch.id);
                let held = self.heard.window(branch.id).len();
                self.vains.later.push(Later {
                    spot,
                    branch,
                    came,
                    held,
                })?;
            }
        }
        Ok(())
    }

    /// Tells what is told at the end of a run of waits that sought in vain: of those whose pattern
    /// came later, that it did.
    ///
    /// # Errors
    /// `NoMemory`.
    pub(crate) fn tell_later(&self, out: &mut Vec<u8, A>) -> Result<(), NoMemory> {
        out.extend_from_slice(&self.vains.last)?;
        for later in self.vains.later.iter() {
            if let Some(sought) = later.branch.sought() {
                self.push_later(out, later, sought)?;
            }
        }
        Ok(())
    }

    /// Writes that a pattern came after its wait, if it did.
    fn push_later(
        &self,
        out: &mut Vec<u8, A>,
        later: &Later<A>,
        sought: Sought<'_>,
    ) -> Result<(), NoMemory> {
        let (came, held) = (later.came, later.held);
        let Some(found) = came_later(self.alloc, &self.heard, &sought, came, held)? else {
            return Ok(());
        };
        let vain = Vain {
            sought,
            window: &[],
            max: 0,
            ending: story::Ending::Open,
        };
        let mut what = Vec::new(self.alloc);
        push_sought(&mut what, &sought)?;
        let mut detail = Vec::new(self.alloc);
        push_why(&mut detail, &found, &vain, &self.place_of(found.cause())?)?;
        push_line(out, &self.place(later.spot)?, &what, &detail)
    }
}

/// Writes how a wait is over, and which keyword was chosen for it.
///
/// # Errors
/// `NoMemory`; a beginning of it may then have been written.
pub(crate) fn push_over<A: Allocator + Copy>(
    out: &mut Vec<u8, A>,
    over: Option<Over>,
    chosen: Option<Keyword>,
) -> Result<(), NoMemory>
    ensures { OnOk result ((branch : List ℕ)
        × (out.new.items ≡ out.old.items ++ line [] (over_text over) branch)) }
{
    let what = over_words(*out.allocator(), over)?;
    push_line(out, b"", &what, branch_of(chosen))?;
    Ok(())
}

/// How a wait is over, in words.
fn over_words<A: Allocator>(alloc: A, over: Option<Over>) -> Result<Vec<u8, A>, NoMemory>
    ensures { IfOk result (λ words. words.items ≡ over_text over) }
{
    match over {
        Some(Over::Time) => Ok(Vec::from_slice(alloc, b"time is over")?),
        Some(Over::End(id)) => id_with(alloc, id, b" is at its end"),
        Some(Over::Full(id)) => id_with(alloc, id, b" fills its buffer"),
        None => Ok(Vec::from_slice(alloc, b"it is over")?),
    }
}

/// The name of an id, and words after it.
fn id_with<A: Allocator>(alloc: A, id: Id, after: &[u8]) -> Result<Vec<u8, A>, NoMemory>
    ensures { IfOk result (λ words. words.items ≡ id_text id.0 ++ after.now) }
{
    let mut words = Vec::new(alloc);
    push_id(&mut words, id)?;
    words.extend_from_slice(after)?;
    Ok(words)
}

/// Which branch is chosen, in words.
fn branch_of(chosen: Option<Keyword>) -> &'static [u8] {
    match chosen {
        Some(Keyword::Eof) => b"branch eof",
        Some(Keyword::Timeout) => b"branch timeout",
        Some(Keyword::Default) => b"branch default",
        Some(Keyword::FullBuffer) => b"branch full_buffer",
        None => b"no branch for it; expect gives \"\"",
    }
}

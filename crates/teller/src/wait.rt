//! The wait of an `expect` that is in progress.

use crate::branches::Branch;
use crate::spots::Spot;
use acts::{Id, NoMemory};
use dialog::Table;
use std::alloc::Allocator;
use story::{Cause, Ending};

/// An id that is waited for.
#[derive(Clone, Copy)]
pub(crate) struct Awaited {
    pub id: Id,
    /// How many bytes its buffer may hold.
    pub max: u32,
    /// Whether nulls are removed from what arrives.
    pub drops_nulls: bool,
}

/// How a wait is over.
#[derive(Clone, Copy)]
pub(crate) enum Over {
    /// The id is at its end.
    End(Id),
    /// The time is over.
    Time,
    /// The buffer of the id is full.
    Full(Id),
}

impl Over {
    /// The id of which all is consumed then, if there is one.
    pub(crate) fn id(self) -> Option<Id> {
        match self {
            Over::End(id) | Over::Full(id) => Some(id),
            Over::Time => None,
        }
    }
}

/// The wait of an `expect` that is in progress.
#[derive(Drop)]
pub(crate) struct Wait<A: Allocator> {
    /// Where the command stands.
    pub spot: Option<Spot>,
    pub branches: Vec<Branch<A>, A>,
    pub awaited: Vec<Awaited, A>,
    /// How it is over, once an answer says so.
    pub over: Option<Over>,
}

impl<A: Allocator> Wait<A> {
    /// The number by which the history names the command.
    pub(crate) fn cause(&self) -> Cause {
        cause_of(self.spot)
    }

    /// What is known of an id that is waited for.
    pub(crate) fn awaited(&self, id: Id) -> Option<Awaited> {
        self.awaited.iter().find(|one| one.id == id).copied()
    }

    /// How many bytes the buffer of an id may hold.
    pub(crate) fn max(&self, id: Id) -> u32 {
        match self.awaited(id) {
            Some(one) => one.max,
            None => 0,
        }
    }

    /// Whether the answer that ended it has told how it is over.
    pub(crate) fn is_told(&self) -> bool {
        matches!(self.over, Some(Over::End(_) | Over::Time))
    }

    /// How the wait is over for a branch of this id.
    pub(crate) fn ending(&self, id: Id) -> Ending {
        if self.awaited(id).is_none() {
            return Ending::Unwaited;
        }
        match self.over {
            Some(Over::End(ended)) if ended == id => Ending::Ended,
            Some(Over::End(_) | Over::Time | Over::Full(_)) | None => Ending::Open,
        }
    }
}

/// The number by which the history names a command: where it begins.
pub(crate) fn cause_of(spot: Option<Spot>) -> Cause {
    match spot {
        Some(spot) => Cause(spot.start as u64),
        None => Cause(u64::MAX),
    }
}

/// What is known of ids that are waited for.
///
/// # Errors
/// `NoMemory`.
pub(crate) fn awaited_in<A: Allocator + Copy>(
    alloc: A,
    ids: &[Id],
    table: &Table<A>,
) -> Result<Vec<Awaited, A>, NoMemory> {
    let mut awaited = Vec::new(alloc);
    for id in ids {
        awaited.push(Awaited {
            id: *id,
            max: table.max(*id).unwrap_or(0),
            drops_nulls: table.drops_nulls(*id).unwrap_or(false),
        })?;
    }
    Ok(awaited)
}

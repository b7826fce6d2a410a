//! What a run keeps between acts.

use crate::ids::Ids;
use dialog::{KeptBranches, LogState};
use std::alloc::Allocator;
use tclstate::{Procs, Scopes};

/// What a run keeps between acts.
pub struct State<A: Allocator> {
    /// The variables.
    pub scopes: Scopes<A>,
    /// The procedures.
    pub procs: Procs<A>,
    /// The spawn ids.
    pub ids: Ids<A>,
    /// Where the bytes that arrive are written (expect(1), log_user and log_file).
    pub log: LogState,
    /// The ticks that are left.
    pub left: u64,
    /// The branches that words said last, with the words. They say nothing that the words do not,
    /// so the definition has no such field.
    pub branches: KeptBranches<A>,
}

impl<A: Allocator> Drop for State<A> {
    fn drop(self) {
        let State {
            scopes: _,
            procs: _,
            ids: _,
            log: _,
            left: _,
            branches: _,
        } = self;
    }
}

//! What rows test: the calls that run scripts.

use crate::course::Ended;
use crate::played::Call;
use acts::{Limits, World};
use std::alloc::{AllocError, Allocator, Global};
use std::io::Write;

/// A way in which a script is run in a world.
#[derive(Clone, Copy)]
pub enum Way {
    /// By one call.
    Run,
    /// By a session, which is asked for each act.
    Session,
}

/// Each way.
pub const WAYS: [Way; 2] = [Way::Run, Way::Session];

impl Way {
    /// The name of the way.
    pub fn name(self) -> &'static str {
        match self {
            Way::Run => "run",
            Way::Session => "session",
        }
    }
}

/// The calls that run scripts.
pub trait Product {
    /// Runs a script in a world to its end, or up to where memory is refused. What is reported of
    /// the run is held in memory of `log`.
    fn run<A: Allocator + Copy, W: World<A>>(
        &self,
        way: Way,
        log: Global,
        alloc: A,
        script: &[u8],
        args: &[Vec<u8, A>],
        limits: Limits,
        world: &mut W,
    ) -> Result<Ended, AllocError>;

    /// Plays a call of the program with these copies of its arguments, and gives its status.
    fn play<A: Allocator + Copy, O: Write + Drop, E: Write + Drop>(
        &self,
        alloc: A,
        call: &Call<'_>,
        args: &[Vec<u8, A>],
        out: O,
        err: E,
    ) -> u8;
}

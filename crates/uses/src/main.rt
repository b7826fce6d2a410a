//! Three uses of the engine: a whole run in a world, a session by hand, two sessions in turns.
#![tactic(auto)]

mod by_hand;
mod echo;
mod in_turns;
mod telling;
mod trouble;

use crate::trouble::Trouble;
use std::alloc::Global;
use std::io::Write;
use std::process::ExitCode;

/// Shows the three uses one after the other.
fn main(rt: HostRuntime) -> ExitCode {
    match show(rt.alloc(), &mut rt.stdout()) {
        Ok(()) => ExitCode::SUCCESS,
        Err(_) => ExitCode::FAILURE,
    }
}

/// Writes what the three uses do.
fn show<W: Write>(alloc: Global, out: &mut W) -> Result<(), Trouble> {
    echo::whole_run(alloc, out)?;
    by_hand::session(alloc, out)?;
    in_turns::sessions(alloc, out)
}

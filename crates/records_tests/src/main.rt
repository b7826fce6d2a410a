//! Tests of the public calls of `records`, `replays` and `recorders`: tables of records that are
//! read, written and cut, of writers that fail, and of acts with what is answered and recorded.
#![tactic(auto)]

mod cuts;
mod digits;
mod reading;
mod short;
mod sinks;
mod worlds;
mod written;

use crate::cuts::Cuts;
use crate::digits::Digits;
use crate::reading::Reading;
use crate::sinks::Sinks;
use crate::worlds::Worlds;
use crate::written::Written;
use std::io;
use std::process::ExitCode;
use tables::{Memory, run_table};

fn main(rt: HostRuntime) -> io::Result<ExitCode> {
    let mut is_well = run_table(
        &rt,
        &Reading { alloc: rt.alloc() },
        "reading",
        Memory::RefusedInTurn,
    )?;
    is_well &= run_table(&rt, &Cuts, "cuts", Memory::Whole)?;
    is_well &= run_table(&rt, &Digits, "digits", Memory::Whole)?;
    is_well &= run_table(&rt, &Sinks, "sinks", Memory::RefusedInTurn)?;
    is_well &= run_table(&rt, &Written, "written", Memory::Whole)?;
    is_well &= run_table(&rt, &Worlds { alloc: rt.alloc() }, "worlds", Memory::Whole)?;
    Ok(ExitCode::from(if is_well { 0 } else { 1 }))
}

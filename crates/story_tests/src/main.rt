//! Tests of the public calls of `story`: tables of each cause for which a pattern is not found, of
//! what a history keeps, and of spellings and lines.
#![tactic(auto)]

mod rows;

use crate::rows::{Causes, Floods, Spellings};
use std::io;
use std::process::ExitCode;
use tables::{Memory, run_table};

fn main(rt: HostRuntime) -> io::Result<ExitCode> {
    let mut is_well = run_table(&rt, &Spellings, "spellings", Memory::RefusedInTurn)?;
    is_well &= run_table(&rt, &Causes, "causes", Memory::RefusedInTurn)?;
    is_well &= run_table(&rt, &Floods, "floods", Memory::Whole)?;
    Ok(ExitCode::from(if is_well { 0 } else { 1 }))
}

//! Tests of the public calls of `tcltext`, `patterns` and `tclparse`: tables of what tclsh 8.6
//! makes of texts and scripts, and of this project's own rules, long texts, and patterns compared
//! with two slow searches.
#![tactic(auto)]

mod matching;
mod scripts;
mod slow;
mod texts;

use crate::matching::{Long, Patterns, run_starved};
use crate::scripts::{LongScripts, Trees};
use crate::slow::run_random;
use crate::texts::{Escapes, Lists, Numbers};
use std::io;
use std::process::ExitCode;
use tables::{Memory, run_table};

fn main(rt: HostRuntime) -> io::Result<ExitCode> {
    let mut is_well = run_table(&rt, &Escapes, "escapes", Memory::RefusedInTurn)?;
    is_well &= run_table(&rt, &Lists, "lists", Memory::RefusedInTurn)?;
    is_well &= run_table(&rt, &Numbers, "numbers", Memory::RefusedInTurn)?;
    is_well &= run_table(&rt, &Patterns, "patterns", Memory::RefusedInTurn)?;
    is_well &= run_table(&rt, &Long, "long", Memory::Whole)?;
    is_well &= run_starved(&rt)?;
    is_well &= run_random(&rt)?;
    is_well &= run_table(&rt, &Trees, "trees", Memory::RefusedInTurn)?;
    is_well &= run_table(&rt, &LongScripts, "long-scripts", Memory::Whole)?;
    Ok(ExitCode::from(if is_well { 0 } else { 1 }))
}

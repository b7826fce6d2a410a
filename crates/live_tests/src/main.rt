//! The live world over a system in memory, which answers by a list: dialogues, with the answers
//! that have to come.
#![tactic(auto)]

mod call;
mod dialogues;
mod listed;
mod reading;

use crate::dialogues::Dialogues;
use std::io;
use std::process::ExitCode;
use std::time::Instant;
use tables::{Memory, run_table};

fn main(rt: HostRuntime) -> io::Result<ExitCode> {
    let dialogues = Dialogues {
        alloc: rt.alloc(),
        start: Instant::now(&rt)?,
    };
    let is_well = run_table(&rt, &dialogues, "dialogues", Memory::Whole)?;
    Ok(ExitCode::from(if is_well { 0 } else { 1 }))
}

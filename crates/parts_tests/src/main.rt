//! Tests of the crates that the state of a run is made of, and of the words of a call: tables, and
//! a few calls that are not rows of one.
#![tactic(auto)]

mod buffers;
mod calls;
mod faults;
mod fitting;
mod frames;
mod ids;
mod kept_texts;
mod numbers;
mod places;
mod refusals;
mod starved;
mod streams;

use crate::buffers::Buffers;
use crate::calls::Calls;
use crate::faults::Faults;
use crate::fitting::Fitting;
use crate::frames::Frames;
use crate::ids::Ids;
use crate::kept_texts::KeptTexts;
use crate::numbers::Numbers;
use crate::places::Places;
use crate::refusals::Refusals;
use crate::starved::run_starved;
use crate::streams::Streams;
use std::io;
use std::process::ExitCode;
use tables::{Memory, run_table};

fn main(rt: HostRuntime) -> io::Result<ExitCode> {
    let mut is_well = run_table(&rt, &Faults, "faults", Memory::RefusedInTurn)?;
    is_well &= run_table(
        &rt,
        &Fitting { alloc: rt.alloc() },
        "fitting",
        Memory::Whole,
    )?;
    is_well &= run_table(&rt, &Numbers, "numbers", Memory::RefusedInTurn)?;
    is_well &= run_table(&rt, &Calls, "calls", Memory::RefusedInTurn)?;
    is_well &= run_table(&rt, &Buffers, "buffers", Memory::RefusedInTurn)?;
    is_well &= run_table(&rt, &Streams, "streams", Memory::Whole)?;
    is_well &= run_table(&rt, &Ids, "ids", Memory::RefusedInTurn)?;
    is_well &= run_table(&rt, &Refusals, "refusals", Memory::RefusedInTurn)?;
    is_well &= run_table(&rt, &Frames, "frames", Memory::RefusedInTurn)?;
    is_well &= run_table(&rt, &Places, "places", Memory::Whole)?;
    is_well &= run_table(&rt, &KeptTexts, "kept", Memory::Whole)?;
    is_well &= run_starved(&rt)?;
    Ok(ExitCode::from(if is_well { 0 } else { 1 }))
}

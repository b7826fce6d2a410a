//! Tests of `code` and `steps`: tables of scripts and formulas, with the instructions that they
//! become, and with the commands that these begin and how they end.
#![tactic(auto)]

mod coded;
mod running;
mod shown;
mod stand_ins;

use crate::coded::Coded;
use crate::running::{Formulas, Scripts};
use std::io;
use std::process::ExitCode;
use tables::{Memory, run_table};

fn main(rt: HostRuntime) -> io::Result<ExitCode> {
    let mut is_well = run_table(&rt, &Coded, "coded", Memory::RefusedInTurn)?;
    is_well &= run_table(&rt, &Scripts, "scripts", Memory::RefusedInTurn)?;
    is_well &= run_table(&rt, &Formulas, "formulas", Memory::RefusedInTurn)?;
    Ok(ExitCode::from(if is_well { 0 } else { 1 }))
}

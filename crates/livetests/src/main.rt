//! Runs dialogues live, by the call that `rx` makes, with programs that every system has, and with
//! this program under other arguments: as a server, and as `rx` itself.
#![tactic(auto)]

mod dialogues;

use crate::dialogues::run_dialogues;
use anyhow::Result;
use rowrules::Report;
use serving::{Part, serve};
use std::env;
use std::process::ExitCode;
use worlds::program::program;

fn main(rt: HostRuntime) -> Result<ExitCode> {
    let words = env::args(&rt)?.skip(1).collect::<Vec<_>>(rt.alloc())?;
    if let Some(part) = Part::read(&words) {
        serve(&rt, part)?;
        return Ok(ExitCode::from(0));
    }
    if !words.is_empty() {
        return Ok(ExitCode::from(program(&rt, rt.stdout(), rt.stderr())));
    }
    let mut report = Report::new(rt.alloc());
    run_dialogues(&rt, &mut report)?;
    print!(rt; "{}", report.text("dialogues")?)?;
    Ok(ExitCode::from(if report.is_well() { 0 } else { 1 }))
}

//! Runs the rows, which are scripts with their courses, and the examples, by every way there is.
#![tactic(auto)]

mod families;
mod product;
mod scripts;

use crate::families::{run_examples, run_family};
use crate::scripts::run_scripts;
use anyhow::{Context, Result, ensure};
use rowfiles::families::read_families;
use rowrules::Report;
use std::io::{BufWriter, Write};
use std::process::ExitCode;
use std::rt::{Env, Files};
use std::{env, fs, io};

fn main(rt: HostRuntime) -> Result<ExitCode> {
    match scripts_path(&rt)? {
        Some(path) => print_scripts(&rt, path.as_str()),
        None => run_rows(&rt),
    }
}

/// The file of scripts that the arguments name, if there are arguments.
fn scripts_path<R: Env + AllocGlobal>(rt: &R) -> Result<Option<String>> {
    let mut words = env::args(rt)?.skip(1);
    let Some(option) = words.next() else {
        return Ok(None);
    };
    ensure!(option.as_str() == "--scripts", "rowtests [--scripts FILE]");
    Ok(words.next())
}

/// Runs the scripts of a file.
fn print_scripts<R: Files + Print + AllocGlobal>(rt: &R, path: &str) -> Result<ExitCode> {
    let mut writer = BufWriter::new(rt.alloc(), io::writer(rt))?;
    run_scripts(rt, &mut writer, path)?;
    writer.flush()?;
    Ok(ExitCode::from(0))
}

/// Runs the families of the list and the examples, and reports whether every result was the
/// expected one.
fn run_rows<R>(rt: &R) -> Result<ExitCode>
where
    R: Files + Print + AllocGlobal + Clone + Drop,
{
    let list = fs::read_to_string(rt, "rows/families").context("rows/families")?;
    let mut is_well = true;
    for family in read_families(rt.alloc(), list.as_str())? {
        let mut report = Report::new(rt.alloc());
        run_family(rt, &mut report, &family)?;
        is_well = is_well && report.is_well();
        print!(rt; "{}", report.text(family.name.as_str())?)?;
    }
    let mut report = Report::new(rt.alloc());
    run_examples(rt, &mut report)?;
    is_well = is_well && report.is_well();
    print!(rt; "{}", report.text("examples")?)?;
    Ok(ExitCode::from(if is_well { 0 } else { 1 }))
}

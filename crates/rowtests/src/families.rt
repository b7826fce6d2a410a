//! The families of rows, in folders, and the examples.

use crate::product::Rx;
use acts::Limits;
use anyhow::{Context, Result, bail};
use rowfiles::families::Family;
use rowfiles::{LineFault, read_rows};
use rowrules::{Call, Prints, Report, run_call, run_rows};
use std::fs;
use std::io::{self, ErrorKind};
use std::rt::Files;

/// The paths of what a folder holds, in order.
fn paths_in<R: Files + AllocGlobal + Clone + Drop>(rt: &R, folder: &str) -> Result<Vec<String>> {
    let mut paths = Vec::new(rt.alloc());
    for entry in fs::read_dir(rt, folder)? {
        let entry = entry?;
        paths.push(String::from_str(rt.alloc(), entry.path().as_str())?)?;
    }
    paths.sort()?;
    Ok(paths)
}

/// Runs the rows of a family.
pub fn run_family<R: Files + AllocGlobal + Clone + Drop>(
    rt: &R,
    report: &mut Report,
    family: &Family,
) -> Result<()> {
    let folder = format!(in rt.alloc(); "rows/{}", family.name)?;
    for path in paths_in(rt, folder.as_str())? {
        if path.ends_with(".rows") {
            run_file(rt, report, path.as_str(), family.is_played).context(path.as_str())?;
        }
    }
    Ok(())
}

/// Runs the rows of a file.
fn run_file<R: Files + AllocGlobal>(
    rt: &R,
    report: &mut Report,
    path: &str,
    is_played: bool,
) -> Result<()> {
    let text = fs::read_to_string(rt, path)?;
    match read_rows(rt.alloc(), text.as_str()) {
        Ok(rows) => Ok(run_rows(rt.alloc(), &Rx, report, &rows, is_played)?),
        Err(LineFault { line, fault }) => bail!("line {line}: {}", fault.text()),
    }
}

/// Plays each example: a folder with a script, a record, and what is printed.
pub fn run_examples<R: Files + AllocGlobal + Clone + Drop>(
    rt: &R,
    report: &mut Report,
) -> Result<()> {
    for path in paths_in(rt, "examples")? {
        if !path.ends_with(".md") {
            run_example(rt, report, path.as_str()).context(path.as_str())?;
        }
    }
    Ok(())
}

fn run_example<R: Files + AllocGlobal>(rt: &R, report: &mut Report, folder: &str) -> Result<()> {
    report.count_row();
    let script = read_part(rt, folder, "script.exp")?;
    let record = read_part(rt, folder, "record")?;
    let args = args_of(rt, folder)?;
    let wanted = wanted(rt, folder)?;
    let call = Call {
        title: folder,
        script: &script,
        args: &args,
        limits: Limits::new(10_000_000).context("ticks")?,
        record: &record,
    };
    run_call(rt.alloc(), &Rx, report, &call, &wanted)?;
    Ok(())
}

/// The name of an example's script and its arguments: the lines of the file `args`, if it is there.
fn args_of<R: Files + AllocGlobal>(rt: &R, folder: &str) -> Result<Vec<Vec<u8>>> {
    let mut args = Vec::new(rt.alloc());
    args.push(Vec::from_slice(rt.alloc(), b"script.exp")?)?;
    let path = format!(in rt.alloc(); "{folder}/args")?;
    let Some(text) = found(fs::read_to_string(rt, path.as_str()))? else {
        return Ok(args);
    };
    for line in text.lines() {
        args.push(Vec::from_slice(rt.alloc(), line.as_bytes())?)?;
    }
    Ok(args)
}

/// The text that was read of a file, if the file is there.
fn found(read: io::Result<String>) -> Result<Option<String>> {
    match read {
        Ok(text) => Ok(Some(text)),
        Err(error) if error.kind() == ErrorKind::NotFound => Ok(None),
        Err(error) => Err(error.into()),
    }
}

/// What an example has to print.
fn wanted<R: Files + AllocGlobal>(rt: &R, folder: &str) -> Result<Prints> {
    let status = read_part(rt, folder, "status")?;
    let status = std::str::from_utf8(&status)?
        .trim()
        .parse::<u8>()
        .context("status")?;
    let out = read_part(rt, folder, "stdout")?;
    Ok(Prints {
        out,
        err: Vec::new(rt.alloc()),
        status,
    })
}

/// A file of an example.
fn read_part<R: Files + AllocGlobal>(rt: &R, folder: &str, name: &str) -> Result<Vec<u8>> {
    let path = format!(in rt.alloc(); "{folder}/{name}")?;
    Ok(fs::read(rt, path.as_str())?)
}

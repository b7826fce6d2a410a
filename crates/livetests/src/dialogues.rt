//! Dialogues in folders: a script, what it prints, and how it ends.

use acts::Limits;
use anyhow::{Context, Result};
use rowrules::{Prints, Report};
use std::alloc::Global;
use std::fs::{self, File};
use std::net::{Net, TcpStream};
use std::process::{Processes, SystemProcess};
use std::rt::{Clock, Files};
use worlds::lived::lived;
use worlds::play::rerun;
use worlds::{Counted, Entry, read_entries};

/// The ticks that a dialogue may take, those of a call without a limit.
const TICKS: u64 = 10_000_000;

/// Runs each dialogue live, in order.
pub fn run_dialogues<R>(rt: &R, report: &mut Report) -> Result<()>
where
    R: Net<Stream = TcpStream>
        + Processes<Started = SystemProcess>
        + Files<File = File>
        + Clock
        + AllocGlobal
        + Clone
        + Drop,
{
    let mut folders = Vec::new(rt.alloc());
    for entry in fs::read_dir(rt, "dialogues")? {
        let entry = entry?;
        folders.push(String::from_str(rt.alloc(), entry.path().as_str())?)?;
    }
    folders.sort()?;
    for folder in folders {
        run_dialogue(rt, report, folder.as_str()).context(folder.as_str())?;
    }
    Ok(())
}

/// Runs the dialogue of a folder, and then again under the record that it left, and compares the
/// results with the expected ones.
fn run_dialogue<R>(rt: &R, report: &mut Report, folder: &str) -> Result<()>
where
    R: Net<Stream = TcpStream>
        + Processes<Started = SystemProcess>
        + Files<File = File>
        + Clock
        + AllocGlobal,
{
    report.count_row();
    let script = read_part(rt, folder, "script.exp")?;
    let wanted = wanted(rt, folder)?.text(rt.alloc())?;
    let limits = Limits::new(TICKS).context("ticks")?;
    let mut record = Vec::new(rt.alloc());
    let came = run_live(rt, &script, limits, &mut record).text(rt.alloc())?;
    report.compare(folder, "a live run", wanted.as_str(), came.as_str())?;
    let entries = read_entries(rt.alloc(), &record).context("record")?;
    let again = run_again(rt.alloc(), &script, limits, entries).text(rt.alloc())?;
    report.compare(folder, "a replay of it", wanted.as_str(), again.as_str())?;
    Ok(())
}

/// The result of a script in the live world, of which a record is made.
fn run_live<R>(rt: &R, script: &[u8], limits: Limits, record: &mut Vec<u8>) -> Prints
where
    R: Net<Stream = TcpStream>
        + Processes<Started = SystemProcess>
        + Files<File = File>
        + Clock
        + AllocGlobal,
{
    let mut out = Vec::new(rt.alloc());
    let mut err = Vec::new(rt.alloc());
    let status = lived(
        rt,
        script,
        &[],
        limits,
        &mut Counted::new(&mut out),
        &mut Counted::new(&mut err),
        &mut Some(Counted::new(record)),
    );
    Prints { out, err, status }
}

/// The result of a script under the entries of a record.
fn run_again(
    alloc: Global,
    script: &[u8],
    limits: Limits,
    entries: Vec<Entry<Global>, Global>,
) -> Prints {
    let mut out = Vec::new(alloc);
    let mut err = Vec::new(alloc);
    let status = rerun(
        alloc,
        script,
        &[],
        limits,
        entries,
        &mut Counted::new(&mut out),
        &mut Counted::new(&mut err),
        &mut None::<Counted<Vec<u8>>>,
    );
    Prints { out, err, status }
}

/// The expected result of a dialogue. Its status is the first line of a file, below which stands
/// what is written to standard error.
fn wanted<R: Files + AllocGlobal>(rt: &R, folder: &str) -> Result<Prints> {
    let out = read_part(rt, folder, "stdout")?;
    let end = read_part(rt, folder, "status")?;
    let end = std::str::from_utf8(&end)?;
    let (status, told) = end.split_once('\n').context("status")?;
    Ok(Prints {
        out,
        err: Vec::from_slice(rt.alloc(), told.as_bytes())?,
        status: status.parse::<u8>().context("status")?,
    })
}

/// A file of a dialogue.
fn read_part<R: Files + AllocGlobal>(rt: &R, folder: &str, name: &str) -> Result<Vec<u8>> {
    let path = format!(in rt.alloc(); "{folder}/{name}")?;
    Ok(fs::read(rt, path.as_str())?)
}

//! Rows as calls of the program under their records.

use crate::prints::{OUTPUT_FAILED, Prints};
use crate::product::Product;
use crate::report::Report;
use acts::Limits;
use refusal::Refusing;
use rowfiles::Row;
use rowfiles::record::record_of;
use rowfiles::row::copies_in;
use std::alloc::{AllocError, Allocator, Global};

/// How many bytes writers take at most before they fail.
const ROOM: usize = 40;

/// The status of a failed writer.
const WRITER_FAILED: u8 = 4;

/// More requests for memory than a call for a row makes.
const MANY: u64 = 100_000;

/// A call of the program under a record.
#[derive(Clone, Copy)]
pub struct Call<'a> {
    pub title: &'a str,
    pub script: &'a [u8],
    pub args: &'a [Vec<u8>],
    pub limits: Limits,
    pub record: &'a [u8],
}

/// Plays a row under its record and compares what is printed, with whole and with failing writers
/// and with memory refused.
pub fn run_played<P: Product>(
    alloc: Global,
    product: &P,
    report: &mut Report,
    row: &Row,
) -> Result<(), AllocError> {
    let own = record_of(alloc, row)?;
    let wanted = wanted(alloc, report, row)?;
    let call = call_of(row, own.as_bytes());
    run_call_of(alloc, product, report, row, &call, &wanted)
}

/// Plays a call for a row.
fn run_call_of<P: Product>(
    alloc: Global,
    product: &P,
    report: &mut Report,
    row: &Row,
    call: &Call<'_>,
    wanted: &Prints,
) -> Result<(), AllocError> {
    run_call(alloc, product, report, call, wanted)?;
    if row.record.is_some() || row.is_bulky() {
        return Ok(());
    }
    let by_acts = Prints::of_acts(alloc, row)?;
    run_hindered(alloc, product, report, call, wanted, &by_acts)
}

/// Plays a call with failing writers and with memory refused.
fn run_hindered<P: Product>(
    alloc: Global,
    product: &P,
    report: &mut Report,
    call: &Call<'_>,
    whole: &Prints,
    by_acts: &Prints,
) -> Result<(), AllocError> {
    run_short_out(alloc, product, report, call, whole, by_acts)?;
    run_short_err(alloc, product, report, call, whole)?;
    run_refused_call(alloc, product, report, call, whole, by_acts)
}

/// The call that plays a row, under the record of its answers if it has no other text.
fn call_of<'a>(row: &'a Row, own: &'a [u8]) -> Call<'a> {
    Call {
        title: row.title.as_str(),
        script: &row.script,
        args: &row.args,
        limits: row.limits,
        record: match &row.record {
            Some(record) => record,
            None => own,
        },
    }
}

/// What has to be printed: what the acts and the end of the row print, and what the row itself says
/// is printed has to agree with that; for a row with a text for its record, only what the row
/// itself says counts.
fn wanted(alloc: Global, report: &mut Report, row: &Row) -> Result<Prints, AllocError> {
    let mut wanted = Prints::of_row(alloc, row)?;
    let by_course = wanted.text(alloc)?;
    wanted.say(&row.printed)?;
    if row.record.is_none() {
        let said = wanted.text(alloc)?;
        let by = "what it says is printed";
        report.expect(row.title.as_str(), by, by_course.as_str(), said.as_str())?;
    }
    Ok(wanted)
}

/// Plays a call with writers that take all.
pub fn run_call<P: Product>(
    alloc: Global,
    product: &P,
    report: &mut Report,
    call: &Call<'_>,
    wanted: &Prints,
) -> Result<(), AllocError> {
    let came = play_whole(alloc, product, alloc, call, call.args);
    compare(alloc, report, call, "play", wanted, &came)
}

fn compare(
    alloc: Global,
    report: &mut Report,
    call: &Call<'_>,
    way: &str,
    wanted: &Prints,
    came: &Prints,
) -> Result<(), AllocError> {
    let wanted = wanted.text(alloc)?;
    let came = came.text(alloc)?;
    report.compare(call.title, way, wanted.as_str(), came.as_str())
}

/// What a call prints with these arguments, to writers that take all.
fn play_whole<P: Product, A: Allocator + Copy>(
    log: Global,
    product: &P,
    alloc: A,
    call: &Call<'_>,
    args: &[Vec<u8, A>],
) -> Prints {
    let mut out = Vec::new(log);
    let mut err = Vec::new(log);
    let status = product.play(alloc, call, args, &mut out, &mut err);
    Prints { out, err, status }
}

/// Plays a call with writers that have room for what is wanted and no more.
fn run_short<P: Product>(
    alloc: Global,
    product: &P,
    report: &mut Report,
    call: &Call<'_>,
    way: &str,
    wanted: &Prints,
) -> Result<(), AllocError> {
    let came = play_short(alloc, product, call, wanted.out.len(), wanted.err.len())?;
    compare(alloc, report, call, way, wanted, &came)
}

/// What a call prints to writers that have room for `out` and `err` bytes.
fn play_short<P: Product>(
    alloc: Global,
    product: &P,
    call: &Call<'_>,
    out: usize,
    err: usize,
) -> Result<Prints, AllocError> {
    let mut out = vec![in alloc; 0u8; out]?;
    let mut err = vec![in alloc; 0u8; err]?;
    let status = product.play(
        alloc,
        call,
        call.args,
        out.as_mut_slice(),
        err.as_mut_slice(),
    );
    Ok(Prints { out, err, status })
}

/// Plays a call with a standard output that fails after each number of bytes: the output has got
/// that beginning, the run goes on as before, and the line and the status are those of a failed
/// writer.
fn run_short_out<P: Product>(
    alloc: Global,
    product: &P,
    report: &mut Report,
    call: &Call<'_>,
    whole: &Prints,
    by_acts: &Prints,
) -> Result<(), AllocError> {
    let mut wanted = by_acts.copy()?;
    wanted.status = WRITER_FAILED;
    wanted.err.extend_from_slice(OUTPUT_FAILED.as_bytes())?;
    for room in 0..whole.out.len().min(ROOM) {
        wanted.out = front(&whole.out, room)?;
        let way = format!(in alloc; "play, standard output fails after {room} bytes")?;
        run_short(alloc, product, report, call, way.as_str(), &wanted)?;
    }
    Ok(())
}

/// Plays a call with a standard error that fails after each number of bytes.
fn run_short_err<P: Product>(
    alloc: Global,
    product: &P,
    report: &mut Report,
    call: &Call<'_>,
    whole: &Prints,
) -> Result<(), AllocError> {
    let mut wanted = whole.copy()?;
    wanted.status = WRITER_FAILED;
    for room in 0..whole.err.len().min(ROOM) {
        wanted.err = front(&whole.err, room)?;
        let way = format!(in alloc; "play, standard error fails after {room} bytes")?;
        run_short(alloc, product, report, call, way.as_str(), &wanted)?;
    }
    Ok(())
}

/// The first `room` bytes of a text.
fn front(bytes: &Vec<u8>, room: usize) -> Result<Vec<u8>, AllocError> {
    let mut front = bytes.clone()?;
    front.truncate(room);
    Ok(front)
}

/// Plays a call with each of its requests for memory refused in turn, up to a call that meets no
/// refusal.
fn run_refused_call<P: Product>(
    alloc: Global,
    product: &P,
    report: &mut Report,
    call: &Call<'_>,
    whole: &Prints,
    by_acts: &Prints,
) -> Result<(), AllocError> {
    let heap = Refusing::new(alloc);
    let args = copies_in(&heap, call.args)?;
    let mut failing = String::new(alloc);
    for n in 1..MANY {
        let refused = heap.refused();
        heap.refuse_nth(n);
        let came = play_whole(alloc, product, &heap, call, &args);
        heap.refuse_none();
        let is_refused = heap.refused() != refused;
        if !came.is_like(whole, by_acts, is_refused) {
            let text = came.text(alloc)?;
            failing = format!(in alloc; "request {n} refused:\n{text}")?;
            break;
        }
        if !is_refused {
            break;
        }
    }
    let way = "play, each request for memory refused in turn";
    report.compare(call.title, way, "", failing.as_str())
}

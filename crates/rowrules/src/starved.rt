//! No memory at all from each arrival to the next wait.

use crate::course::{Course, course_text};
use crate::product::{Product, WAYS, Way};
use crate::report::Report;
use crate::whole::end_in;
use crate::world::{Scripted, Starved};
use acts::{Act, Answer, Id, Timer};
use refusal::Refusing;
use rowfiles::{Exchange, Row};
use std::alloc::{AllocError, Global};

/// Runs a row by each way with all memory refused from each arrival to the next wait, where no
/// branch is chosen between them: no memory may be asked for there.
pub fn run_starved<P: Product>(
    alloc: Global,
    product: &P,
    report: &mut Report,
    row: &Row,
) -> Result<(), AllocError> {
    let hungry = hungry(alloc, row)?;
    if !hungry.contains(&true) {
        return Ok(());
    }
    let wanted = course_text(alloc, row)?;
    for way in WAYS {
        let came = starve(alloc, product, way, row, &hungry)?;
        let name = way.name();
        let by = format!(in alloc; "{name}, no memory from an arrival to the next wait")?;
        report.compare(
            row.title.as_str(),
            by.as_str(),
            wanted.as_str(),
            came.as_str(),
        )?;
    }
    Ok(())
}

/// The course of a row by a way, and how often it asked for memory while there was none.
fn starve<P: Product>(
    alloc: Global,
    product: &P,
    way: Way,
    row: &Row,
    hungry: &[bool],
) -> Result<String, AllocError> {
    let heap = Refusing::new(alloc);
    let mut text = starved_course(alloc, product, way, &heap, row, hungry)?.text()?;
    let refused = heap.refused();
    if 0 < refused {
        writeln!(text, "{refused} requests for memory")?;
    }
    Ok(text)
}

fn starved_course<P: Product>(
    log: Global,
    product: &P,
    way: Way,
    heap: &Refusing<Global>,
    row: &Row,
    hungry: &[bool],
) -> Result<Course, AllocError> {
    let args = row.args_in(heap)?;
    let inner = Scripted::new(log, row.answers(heap)?);
    let mut world = Starved::new(inner, heap, hungry);
    let end = end_in(log, product, way, heap, row, &args, &mut world);
    heap.refuse_none();
    Ok(Course {
        acts: world.into_told(),
        end: end?,
    })
}

/// For each act of a row, whether it stands from an arrival on and before the next wait, with no
/// branch chosen between the two.
fn hungry(alloc: Global, row: &Row) -> Result<Vec<bool>, AllocError> {
    let mut hungry = vec![in alloc; false; row.exchanges.len()]?;
    let mut last: Option<(usize, &Exchange)> = None;
    for (at, exchange) in row.exchanges.iter().enumerate() {
        match &exchange.act {
            Act::Out(_) | Act::Log(_) => {}
            Act::Wait { .. } => {
                mark(&mut hungry, last, at, exchange);
                last = Some((at, exchange));
            }
            _ => last = None,
        }
    }
    Ok(hungry)
}

/// Sets the flags from the last wait on and before the next one, if that continues the last one.
fn mark(flags: &mut [bool], last: Option<(usize, &Exchange)>, end: usize, wait: &Exchange) {
    let Some((first, arrival)) = last else {
        return;
    };
    if !goes_on(arrival, wait) {
        return;
    }
    for flag in flags.iter_mut().take(end).skip(first) {
        *flag = true;
    }
}

/// Whether a wait continues an earlier one after its arrival, with no branch chosen: its timer was
/// not started anew, and its buffers hold what they held and the bytes that came.
fn goes_on(arrival: &Exchange, wait: &Exchange) -> bool {
    let Answer::Arrive(id, bytes) = &arrival.answer else {
        return false;
    };
    let Act::Wait { rows: before, .. } = &arrival.act else {
        return false;
    };
    let Act::Wait { rows: later, timer } = &wait.act else {
        return false;
    };
    !matches!(timer, Timer::Start(_)) && are_filled(before, later, *id, count(bytes))
}

/// How many bytes are no nulls.
fn count(bytes: &[u8]) -> usize {
    let mut came = 0usize;
    for byte in bytes {
        if *byte != 0 {
            came = came.saturating_add(1);
        }
    }
    came
}

/// Whether later rows hold what earlier rows held, and the one of `id` also the bytes that `came`.
fn are_filled(before: &[acts::Row], later: &[acts::Row], id: Id, came: usize) -> bool {
    if before.len() != later.len() {
        return false;
    }
    for (row, next) in before.iter().zip(later.iter()) {
        let came = if row.id == id { came } else { 0 };
        if !is_filled(row, next, came) {
            return false;
        }
    }
    true
}

/// Whether a later row holds what a row held and `came` bytes more, as far as it has room.
fn is_filled(row: &acts::Row, later: &acts::Row, came: usize) -> bool {
    let held = (row.held as usize)
        .saturating_add(came)
        .min(row.max as usize);
    later.id == row.id && later.max == row.max && later.held as usize == held
}

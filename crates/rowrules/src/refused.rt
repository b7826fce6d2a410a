//! Memory that is refused to a run.

use crate::course::Course;
use crate::product::{Product, WAYS, Way};
use crate::report::Report;
use crate::whole::end_in;
use crate::world::Scripted;
use refusal::Refusing;
use rowfiles::Row;
use std::alloc::{AllocError, Global};

/// More requests for memory than a run of a row makes.
const MANY: u64 = 100_000;

/// Runs a row by each way with each of its requests for memory refused in turn, up to a run that
/// meets no refusal. The acts of a refused run are a beginning of the row's, or, where the run goes
/// on without that memory, all of them and the end.
pub fn run_refused<P: Product>(
    alloc: Global,
    product: &P,
    report: &mut Report,
    row: &Row,
) -> Result<(), AllocError> {
    let whole = Course::of_row(alloc, row)?;
    for way in WAYS {
        let came = refuse_each(alloc, product, way, row, &whole)?;
        let name = way.name();
        let by = format!(in alloc; "{name}, each request for memory refused in turn")?;
        report.compare(row.title.as_str(), by.as_str(), "", came.as_str())?;
    }
    Ok(())
}

/// The course of the first run with a refusal that did not end as it should; empty if there is
/// none.
fn refuse_each<P: Product>(
    alloc: Global,
    product: &P,
    way: Way,
    row: &Row,
    whole: &Course,
) -> Result<String, AllocError> {
    let heap = Refusing::new(alloc);
    for n in 1..MANY {
        let refused = heap.refused();
        let came = refuse_nth(alloc, product, way, &heap, row, n)?;
        let is_refused = heap.refused() != refused;
        if !came.is_like(whole, is_refused) {
            return told(alloc, n, &came);
        }
        if !is_refused {
            return Ok(String::new(alloc));
        }
    }
    String::from_str(alloc, "each request was refused")
}

/// The course of a row where the n-th request of its run is refused.
fn refuse_nth<P: Product>(
    alloc: Global,
    product: &P,
    way: Way,
    heap: &Refusing<Global>,
    row: &Row,
    n: u64,
) -> Result<Course, AllocError> {
    let args = row.args_in(heap)?;
    let mut world = Scripted::new(alloc, row.answers(heap)?);
    heap.refuse_nth(n);
    let end = end_in(alloc, product, way, heap, row, &args, &mut world);
    heap.refuse_none();
    Ok(Course {
        acts: world.into_told(),
        end: end?,
    })
}

/// The course of a run whose n-th request was refused, with that number.
fn told(alloc: Global, n: u64, came: &Course) -> Result<String, AllocError> {
    let course = came.text()?;
    format!(in alloc; "request {n} refused:\n{course}")
}

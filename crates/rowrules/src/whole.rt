//! A row as it stands.

use crate::course::{Course, course_text};
use crate::product::{Product, WAYS, Way};
use crate::report::Report;
use crate::world::Scripted;
use acts::{Answer, World};
use rowfiles::Row;
use std::alloc::{AllocError, Allocator, Global};

/// Runs a row's script by a way in a world, and gives the line of its end.
pub fn end_in<P: Product, A: Allocator + Copy, W: World<A>>(
    log: Global,
    product: &P,
    way: Way,
    alloc: A,
    row: &Row,
    args: &[Vec<u8, A>],
    world: &mut W,
) -> Result<String, AllocError> {
    let ended = product.run(way, log, alloc, &row.script, args, row.limits, world)?;
    ended.text(log)
}

/// The course of a row's script by a way, in a world that gives these answers.
pub fn course<P: Product>(
    alloc: Global,
    product: &P,
    way: Way,
    row: &Row,
    answers: Vec<Answer<Global>>,
) -> Result<Course, AllocError> {
    let mut world = Scripted::new(alloc, answers);
    let end = end_in(alloc, product, way, alloc, row, &row.args, &mut world)?;
    Ok(Course {
        acts: world.into_told(),
        end,
    })
}

/// The course of a row's script by a way, in a world that gives the row's answers, as one text.
fn came<P: Product>(alloc: Global, product: &P, way: Way, row: &Row) -> Result<String, AllocError> {
    let answers = row.answers(alloc)?;
    course(alloc, product, way, row, answers)?.text()
}

/// Runs a row by each way.
pub fn run_whole<P: Product>(
    alloc: Global,
    product: &P,
    report: &mut Report,
    row: &Row,
) -> Result<(), AllocError> {
    let wanted = course_text(alloc, row)?;
    for way in WAYS {
        let came = came(alloc, product, way, row)?;
        report.compare(
            row.title.as_str(),
            way.name(),
            wanted.as_str(),
            came.as_str(),
        )?;
    }
    Ok(())
}

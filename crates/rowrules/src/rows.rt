//! Rows by each rule.

use crate::cuts::run_cuts;
use crate::played::run_played;
use crate::product::Product;
use crate::refused::run_refused;
use crate::report::Report;
use crate::starved::run_starved;
use crate::turned::run_turned;
use crate::whole::run_whole;
use rowfiles::Row;
use std::alloc::{AllocError, Global};

/// Runs rows by each rule that applies to them; under their records too where they are played.
pub fn run_rows<P: Product>(
    alloc: Global,
    product: &P,
    report: &mut Report,
    rows: &[Row],
    is_played: bool,
) -> Result<(), AllocError> {
    for row in rows {
        run_row(alloc, product, report, row, is_played)?;
    }
    Ok(())
}

/// Runs a row by each rule that applies to it.
fn run_row<P: Product>(
    alloc: Global,
    product: &P,
    report: &mut Report,
    row: &Row,
    is_played: bool,
) -> Result<(), AllocError> {
    report.count_row();
    if row.record.is_none() {
        run_in_worlds(alloc, product, report, row)?;
    }
    if is_played {
        run_played(alloc, product, report, row)?;
    }
    if is_played && row.record.is_none() {
        run_cuts(alloc, report, row)?;
    }
    Ok(())
}

/// Runs a row in worlds that answer from a list.
fn run_in_worlds<P: Product>(
    alloc: Global,
    product: &P,
    report: &mut Report,
    row: &Row,
) -> Result<(), AllocError> {
    run_whole(alloc, product, report, row)?;
    run_starved(alloc, product, report, row)?;
    if row.is_bulky() {
        return Ok(());
    }
    run_turned(alloc, product, report, row)?;
    run_refused(alloc, product, report, row)
}

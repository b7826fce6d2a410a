//! The results of running rows.

use std::alloc::{AllocError, Global};

/// How many failing ways are written out at most.
const SHOWN: u64 = 20;

/// How many rows were run in how many ways, and the ways that failed.
#[derive(Drop)]
pub struct Report {
    rows: u64,
    ways: u64,
    failed: u64,
    shown: String,
}

impl Report {
    /// A report before any row was run.
    pub fn new(alloc: Global) -> Report {
        Report {
            rows: 0,
            ways: 0,
            failed: 0,
            shown: String::new(alloc),
        }
    }

    /// Counts a row.
    pub fn count_row(&mut self) {
        self.rows = self.rows.saturating_add(1);
    }

    /// Counts a way in which a row was run, and records the result where it is not the expected
    /// one.
    pub fn compare(
        &mut self,
        title: &str,
        way: &str,
        wanted: &str,
        came: &str,
    ) -> Result<(), AllocError> {
        self.ways = self.ways.saturating_add(1);
        self.expect(title, way, wanted, came)
    }

    /// Records the result where it is not the expected one.
    pub fn expect(
        &mut self,
        title: &str,
        way: &str,
        wanted: &str,
        came: &str,
    ) -> Result<(), AllocError> {
        if wanted == came {
            return Ok(());
        }
        self.failed = self.failed.saturating_add(1);
        if self.failed <= SHOWN {
            push_failure(&mut self.shown, title, way, wanted, came)?;
        }
        Ok(())
    }

    /// Whether every result was the expected one.
    pub fn is_well(&self) -> bool {
        self.failed == 0
    }

    /// The failing ways and then the counts, under the name of the family.
    pub fn text(&self, family: &str) -> Result<String, AllocError> {
        let mut text = self.shown.clone()?;
        let Report {
            rows,
            ways,
            failed,
            shown: _,
        } = self;
        write!(text, "{family}: {rows} rows, {ways} ways")?;
        if 0 < *failed {
            write!(text, ", {failed} FAILED")?;
        }
        text.push_str("\n")?;
        Ok(text)
    }
}

/// Writes a way that failed.
fn push_failure(
    text: &mut String,
    title: &str,
    way: &str,
    wanted: &str,
    came: &str,
) -> Result<(), AllocError> {
    writeln!(text, "FAILED {title}\n  by {way}\n wanted:")?;
    push_lines(text, wanted)?;
    text.push_str(" came:\n")?;
    push_lines(text, came)
}

fn push_lines(text: &mut String, lines: &str) -> Result<(), AllocError> {
    for line in lines.lines() {
        writeln!(text, "    {line}")?;
    }
    Ok(())
}

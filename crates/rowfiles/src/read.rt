//! The format of row files.

use crate::draft::{Draft, is_comment};
use crate::fault::{LineFault, RowFault};
use crate::repeated::repeated;
use crate::row::Row;
use std::alloc::Global;

/// The rows of a file.
///
/// # Errors
/// The first line that is wrong.
pub fn read_rows(alloc: Global, text: &str) -> Result<Vec<Row>, LineFault> {
    let mut reader = Reader {
        alloc,
        line: 0,
        rows: Vec::new(alloc),
        draft: None,
    };
    match reader.read(text) {
        Ok(()) => Ok(reader.into_rows()),
        Err(fault) => Err(LineFault {
            line: reader.line,
            fault,
        }),
    }
}

/// The rows of a file so far, and the one that is being read.
#[derive(Drop)]
struct Reader {
    alloc: Global,
    /// The number of the line that is read.
    line: usize,
    rows: Vec<Row>,
    draft: Option<Draft>,
}

impl Reader {
    /// Takes all lines.
    fn read(&mut self, text: &str) -> Result<(), RowFault> {
        for (before, line) in text.lines().enumerate() {
            self.line = before.saturating_add(1);
            let line = repeated(self.alloc, line)?;
            self.take(line.as_str())?;
        }
        self.finish()
    }

    /// Takes a line.
    fn take(&mut self, line: &str) -> Result<(), RowFault> {
        if let Some(title) = line.strip_prefix("row ") {
            return self.begin(title);
        }
        match &mut self.draft {
            Some(draft) => draft.take(self.alloc, self.line, line),
            None if is_comment(line) => Ok(()),
            None => Err(RowFault::NoRow),
        }
    }

    /// Begins the row with this title.
    fn begin(&mut self, title: &str) -> Result<(), RowFault> {
        self.finish()?;
        self.draft = Some(Draft::new(self.alloc, title)?);
        Ok(())
    }

    /// Completes the row that is being read, if there is one, and adds it to the others.
    fn finish(&mut self) -> Result<(), RowFault> {
        if let Some(draft) = &mut self.draft {
            draft.complete(self.alloc, &mut self.line)?;
        }
        if let Some(draft) = self.draft.take() {
            self.rows.push(draft.into_row())?;
        }
        Ok(())
    }

    /// The rows that were read.
    fn into_rows(self) -> Vec<Row> {
        let Reader {
            alloc: _,
            line: _,
            rows,
            draft: _,
        } = self;
        rows
    }
}

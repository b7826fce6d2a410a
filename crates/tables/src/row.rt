//! The form of a row.

use percent_encoding::{AsciiSet, CONTROLS, ascii_set, percent_decode};
use std::alloc::{AllocError, Global};

/// The ASCII bytes that are written as `%` and two hexadecimal digits, as those outside ASCII are.
pub(crate) const ESCAPED: AsciiSet = ascii_set!(CONTROLS.add(b'%').add(b'|'));

/// Whether a line is no row.
pub(crate) fn is_comment(line: &str) -> bool {
    line.is_empty() || line.starts_with('#')
}

/// The fields of a row, which stand between bars.
pub(crate) fn read_fields(alloc: Global, line: &str) -> Result<Vec<Vec<u8>>, AllocError> {
    let mut fields = Vec::new(alloc);
    for text in line.split('|') {
        let mut field = Vec::new(alloc);
        percent_decode(text.as_bytes()).append_to(&mut field)?;
        fields.push(field)?;
    }
    Ok(fields)
}

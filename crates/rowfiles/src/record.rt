//! The records of rows.

use crate::row::Row;
use crate::spelling::push_answer;
use acts::Answer;
use std::alloc::{AllocError, Global};

/// The first line of a record.
pub const HEADER: &str = "rx-record 1\n";

/// The record of a row's answers, up to the first act for which the world had no more.
pub fn record_of(alloc: Global, row: &Row) -> Result<String, AllocError> {
    let mut text = String::from_str(alloc, HEADER)?;
    for exchange in &row.exchanges {
        if matches!(exchange.answer, Answer::NoMore) {
            break;
        }
        push_line(&mut text, &exchange.answer)?;
        text.push_str("\n")?;
    }
    Ok(text)
}

/// Writes the line of an answer, which is as rows spell it but for the bytes that arrive: these are
/// in hexadecimal digits.
fn push_line(text: &mut String, answer: &Answer<Global>) -> Result<(), AllocError> {
    match answer {
        Answer::Arrive(id, bytes) => {
            let number = id.0;
            write!(text, "arrive exp{number} ")?;
            push_hex(text, bytes)
        }
        _ => push_answer(text, answer),
    }
}

/// Writes bytes in hexadecimal digits.
pub fn push_hex(text: &mut String, bytes: &[u8]) -> Result<(), AllocError> {
    for byte in bytes {
        write!(text, "{byte:02x}")?;
    }
    Ok(())
}

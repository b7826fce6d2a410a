//! One line of a record: how an answer, the rows of a wait, numbers and bytes are spelled and read.
#![tactic(auto)]

mod cut;
mod digits;
mod line;
mod numbers;
mod rows;

pub use cut::cut_at;
pub use digits::write_digits;
pub use line::{cut_arrival, is_other, read_hex, read_likely, read_other};
pub use rows::{are_rows, read_first_row, read_wait};

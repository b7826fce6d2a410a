//! Whole numbers: reading a numeral, and writing a number in decimal.

mod print;
mod read;

pub use print::{print_int, print_nat};
pub use read::read_int;

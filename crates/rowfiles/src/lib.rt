//! Files of rows, which are scripts with their courses: reading them, and writing acts, answers and
//! ends as rows spell them.
#![tactic(auto)]

mod draft;
pub mod end;
pub mod families;
pub mod fault;
mod read;
pub mod record;
mod repeated;
pub mod row;
pub mod spelled;
pub mod spelling;
mod words;

pub use end::End;
pub use fault::{LineFault, RowFault};
pub use read::read_rows;
pub use row::{Exchange, Printed, Row};
pub use words::Words;

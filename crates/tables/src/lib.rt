//! Test support: tables, whose rows a program answers. A row is a line of a file, so a further one
//! costs no proof.
#![tactic(auto)]

mod answer;
mod row;
mod table;

pub use answer::{name, number, push_angled, push_shown, repeated};
pub use table::{Answers, Memory, run_table};

//! Operations on whole numbers of 64 bits, defined by those on whole numbers without limit
//! (expr(n), operators).
#![tactic(auto)]

pub mod division;
pub mod laws;
pub mod shifts;
mod signs;

//! The command that defines procedures.
#![tactic(auto)]

mod formals;
pub mod proc;

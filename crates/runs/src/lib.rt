//! What a whole run is, and what holds of all runs. Nothing here runs: the crate is definitions and
//! laws.
#![tactic(auto)]

pub mod laws;

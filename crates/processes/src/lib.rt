//! The commands that start programs and call servers, wait for them and close them, and those that
//! read and set the settings of each.
#![tactic(auto)]

pub mod close;
mod ids;
mod launch;
pub mod match_max;
mod numbers;
pub mod remove_nulls;
pub mod requests;
pub mod sleep;
pub mod socket;
pub mod spawn;
pub mod wait;

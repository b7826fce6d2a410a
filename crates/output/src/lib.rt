//! The commands that send a text, that write to standard output, to standard error and to the log,
//! and those that set where arriving bytes are written.
#![tactic(auto)]

pub mod channel;
pub mod log_file;
pub mod log_user;
pub mod puts;
pub mod send;
pub mod send_error;
pub mod send_log;
pub mod send_user;
mod settings;

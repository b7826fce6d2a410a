//! The live world: programs over pipes, servers over TCP, files and the clock.
#![tactic(auto)]

mod arriving;
mod calls;
mod host;
mod link;
mod live;
mod outputs;
mod peers;
mod polling;
mod processes;
mod sending;
mod silent;
mod sockets;
mod system;
mod waiting;

pub use calls::{Owned, System};
pub use link::Look;
pub use live::Live;

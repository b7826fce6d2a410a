//! Why a use cannot continue.

use acts::NoMemory;
use std::io;

/// Memory was refused, or what was done could not be written.
#[derive(Clone, Copy, Debug, PartialEq, Eq)]
pub enum Trouble {
    NoMemory,
    NotWritten,
}

impl From<NoMemory> for Trouble {
    fn from(_: NoMemory) -> Trouble {
        Trouble::NoMemory
    }
}

impl From<io::Error> for Trouble {
    fn from(_: io::Error) -> Trouble {
        Trouble::NotWritten
    }
}

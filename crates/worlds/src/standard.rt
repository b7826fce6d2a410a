//! The descriptors of standard input, output and error.

use std::fs::{self, File};
use std::os::fd::AsRawFd;
use std::rt::Files;

/// The file by which a descriptor is held.
const NOTHING: &str = "/dev/null";

/// Takes those of the three descriptors that are closed, for as long as the result is kept.
/// Otherwise the system would give their numbers to the next files and connections that are opened,
/// and output would go there. A write to an output that is held fails, as it does where the output
/// is closed, and so does a read from an input.
pub fn hold_closed<R: Files<File = File>>(rt: &R) -> [Option<File>; 3] {
    match hold_next(rt) {
        Some(first) => [Some(first), hold_next(rt), hold_next(rt)],
        None => [None, None, None],
    }
}

/// Takes the lowest descriptor that is closed, if it is one of the three.
fn hold_next<R: Files<File = File>>(rt: &R) -> Option<File> {
    let held = fs::open(rt, NOTHING).ok()?;
    match held.as_raw_fd() {
        // Standard input is opened again for writing only, and gets the same number.
        0 => {
            drop(held);
            fs::create(rt, NOTHING).ok()
        }
        1 | 2 => Some(held),
        _ => None,
    }
}

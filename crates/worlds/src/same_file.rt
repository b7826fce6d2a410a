//! Whether a file keeps what is written to it, and whether two names are those of one file.

use std::fs::{self, Files};
use std::os::unix::fs::MetadataExt;

/// Where a file lies, whatever its names are.
#[derive(Clone, Copy, Debug, PartialEq, Eq)]
struct Place {
    device: u64,
    number: u64,
}

/// Whether these are names of one existing file that keeps what is written to it: links count,
/// too, but a device, pipe or terminal does not.
pub fn is_same_file<R: Files>(rt: &R, first: &[u8], second: &[u8]) -> bool {
    match (place_of(rt, first), place_of(rt, second)) {
        (Some(first), Some(second)) => first == second,
        _ => false,
    }
}

/// Whether the file of this name exists and keeps what is written to it.
pub fn is_kept<R: Files>(rt: &R, name: &str) -> bool {
    fs::metadata(rt, name).is_ok_and(|found| found.is_file())
}

/// The place of the file of this name, where there is one that keeps what is written to it.
fn place_of<R: Files>(rt: &R, name: &[u8]) -> Option<Place> {
    let path = std::str::from_utf8(name).ok()?;
    let found = fs::metadata(rt, path).ok()?;
    if !found.is_file() {
        return None;
    }
    Some(Place {
        device: found.dev(),
        number: found.ino(),
    })
}

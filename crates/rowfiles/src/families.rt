//! The list of families.

use std::alloc::{AllocError, Global};

/// A family that is run: its folder, and whether its rows are played under their records too.
#[derive(Drop)]
pub struct Family {
    pub name: String,
    pub is_played: bool,
}

/// The families of a list: a line each, the name and, where the rows are played, `play`. Lines that
/// begin with `#` are comments.
pub fn read_families(alloc: Global, list: &str) -> Result<Vec<Family>, AllocError> {
    let mut families = Vec::new(alloc);
    for line in list.lines() {
        if !line.starts_with('#') {
            take_line(&mut families, line)?;
        }
    }
    Ok(families)
}

fn take_line(families: &mut Vec<Family>, line: &str) -> Result<(), AllocError> {
    let mut words = line.split_whitespace();
    if let Some(name) = words.next() {
        let name = String::from_str(*families.allocator(), name)?;
        families.push(Family {
            name,
            is_played: words.next() == Some("play"),
        })?;
    }
    Ok(())
}

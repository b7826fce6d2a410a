//! The lines of a script, by which places in it are told.

use acts::NoMemory;
use acts::decimal::push_decimal;
use memchr::memchr_iter;
use std::alloc::Allocator;

/// Where the lines of a script begin, and how many of its first bytes are the texts of `-c`.
#[derive(Drop)]
pub struct Lines<A: Allocator> {
    /// The name of the script's file.
    name: Vec<u8, A>,
    /// Where each line begins after the first, in rising order.
    starts: Vec<usize, A>,
    /// How many bytes the texts of `-c` have, which stand before that of the file.
    commands: usize,
}

impl<A: Allocator + Copy> Lines<A> {
    /// The lines of a text of which the first `commands` bytes are those of `-c`, and the rest is
    /// that of the file of this name.
    ///
    /// # Errors
    /// `NoMemory`.
    pub fn of(alloc: A, name: &[u8], text: &[u8], commands: usize) -> Result<Lines<A>, NoMemory> {
        let mut starts = Vec::new(alloc);
        for at in memchr_iter(b'\n', text) {
            starts.push(at.saturating_add(1))?;
        }
        Ok(Lines {
            name: Vec::from_slice(alloc, name)?,
            starts,
            commands,
        })
    }

    /// How many lines begin at this place of the text or before it, without the first.
    fn before(&self, at: usize) -> usize {
        self.starts.partition_point(|start| *start <= at)
    }

    /// Writes the line at this place of the text, counted from 1, after the name of its file: as
    /// `login.exp:3`, or as `-c:1` where it is one of the texts of `-c`.
    ///
    /// # Errors
    /// `NoMemory`; a beginning of it may then have been written.
    pub fn push(&self, out: &mut Vec<u8, A>, at: usize) -> Result<(), NoMemory> {
        let line = self.before(at);
        if at < self.commands {
            out.extend_from_slice(b"-c:")?;
            return push_decimal(out, line.saturating_add(1) as u64);
        }
        let first = if self.commands == 0 {
            0
        } else {
            self.before(self.commands)
        };
        out.extend_from_slice(&self.name)?;
        out.push(b':')?;
        push_decimal(out, line.saturating_sub(first).saturating_add(1) as u64)
    }
}

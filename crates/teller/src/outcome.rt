//! Errors, and the commands that were in progress when they came.

use crate::bounds::faulty_start;
use crate::ended::{Ended, Placed};
use crate::spots::{Progressing, Spot, commands_of};
use crate::telling::Teller;
use acts::NoMemory;
use acts::decimal::push_decimal;
use code::Instruction;
use std::alloc::Allocator;

/// How many commands around that of an error are told at most.
const MOST_AROUND: usize = 20;

impl<A: Allocator + Copy> Teller<A> {
    /// Takes note of what is written to standard error.
    ///
    /// # Errors
    /// `NoMemory`.
    pub(crate) fn see_report(&mut self, text: &[u8]) -> Result<(), NoMemory> {
        self.report.clear();
        self.report
            .extend_from_slice(text.strip_suffix(b"\n").unwrap_or(text))?;
        Ok(())
    }

    /// Tells the error that ended the run, if one did: the command, and those around it.
    ///
    /// # Errors
    /// `NoMemory`.
    pub(crate) fn tell_raised(&mut self, out: &mut Vec<u8, A>) -> Result<(), NoMemory> {
        if self.ended.is_empty() && self.report.is_empty() {
            return Ok(());
        }
        let spots = self.ended_spots()?;
        let mut detail = Vec::new(self.alloc);
        detail.extend_from_slice(b"error: ")?;
        detail.extend_from_slice(&self.report)?;
        let Some((inner, outer)) = spots.split_last() else {
            self.tell(out, None, b"", &detail)?;
            return self.tell_refusal(out);
        };
        self.tell_command(out, Some(*inner), &detail)?;
        self.tell_refusal(out)?;
        self.tell_around(out, outer)
    }

    /// Where the command stands that has raised the error, and before it those around it, the
    /// outermost first. Where none has begun, the first command of the script is at fault.
    fn ended_spots(&self) -> Result<Vec<Spot, A>, NoMemory> {
        let mut scripts = Vec::new(self.alloc);
        for one in self.ended.iter().rev() {
            self.add_code(&mut scripts, &one.placed)?;
        }
        if self.ended.first().is_some_and(is_faulty) {
            let last = scripts.pop();
            let mut spots = commands_of(self.alloc, &scripts)?;
            if let Some(script) = last {
                self.push_faulty(&mut spots, script)?;
            }
            return Ok(spots);
        }
        commands_of(self.alloc, &scripts)
    }

    /// Adds where the faulty command stands of a script whose whole commands have run.
    fn push_faulty(&self, spots: &mut Vec<Spot, A>, script: Progressing) -> Result<(), NoMemory> {
        let Some(ground) = script.ground else {
            return Ok(());
        };
        let last = match script.command {
            Some(command) => command.start.checked_sub(ground.start),
            None => None,
        };
        let start = faulty_start(self.alloc, ground.text(&self.script), last)?;
        spots.push(Spot {
            start: ground.start.saturating_add(start),
            end: ground.end,
            in_word: false,
        })?;
        Ok(())
    }

    /// Tells the commands around that of an error, the innermost first.
    fn tell_around(&self, out: &mut Vec<u8, A>, outer: &[Spot]) -> Result<(), NoMemory> {
        for spot in outer.iter().rev().take(MOST_AROUND) {
            self.tell_command(out, Some(*spot), b"was in progress")?;
        }
        if outer.len() <= MOST_AROUND {
            return Ok(());
        }
        let mut rest = Vec::new(self.alloc);
        push_decimal(&mut rest, outer.len().saturating_sub(MOST_AROUND) as u64)?;
        rest.extend_from_slice(b" more around it")?;
        self.tell(out, None, b"", &rest)
    }
}

/// Whether a code has ended by the fault of a text.
fn is_faulty<A: Allocator>(ended: &Ended<A>) -> bool {
    let Placed { code, place, .. } = &ended.placed;
    let last = place.checked_sub(1).and_then(|at| code.get(at));
    matches!(last, Some(Instruction::Fault(_)))
}

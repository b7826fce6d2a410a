//! Where the commands in progress stand in the text of a script.

use crate::ended::Placed;
use crate::grounds::found_in;
use crate::nested::{Level, Stands, levels_at};
use crate::telling::Teller;
use acts::NoMemory;
use std::alloc::Allocator;
use tcltext::Value;

/// A part of a script's text, from one byte up to another.
#[derive(Clone, Copy, Debug, PartialEq, Eq)]
pub(crate) struct Spot {
    pub start: usize,
    pub end: usize,
    /// Whether it is a command in a word of another one: then it ends at the latest where its
    /// bracket is closed.
    pub in_word: bool,
}

impl Spot {
    /// A whole text.
    pub(crate) fn whole(script: &[u8]) -> Spot {
        Spot {
            start: 0,
            end: script.len(),
            in_word: false,
        }
    }

    /// The bytes of the text that stand there.
    pub(crate) fn text(self, script: &[u8]) -> &[u8] {
        let text = script.get(self.start..self.end).unwrap_or(&[]);
        if self.in_word {
            up_to_bracket(text)
        } else {
            text
        }
    }
}

/// A text up to the bracket that closes more than were opened in it.
fn up_to_bracket(text: &[u8]) -> &[u8] {
    let mut open = 0u32;
    for (place, byte) in text.iter().enumerate() {
        match byte {
            b'[' => open = open.saturating_add(1),
            b']' if open == 0 => return text.get(..place).unwrap_or(text),
            b']' => open = open.saturating_sub(1),
            _ => {}
        }
    }
    text
}

/// A script in progress: where its text stands in that of the run, and where its command in
/// progress does; `None` where that is not known.
#[derive(Clone, Copy)]
pub(crate) struct Progressing {
    pub ground: Option<Spot>,
    pub command: Option<Spot>,
}

impl<A: Allocator + Copy> Teller<A> {
    /// Where the commands in progress stand in the script of the run, the outermost first. Left out
    /// is a command of a text that is no part of the script as it is written, such as one that was
    /// put together for `eval`.
    ///
    /// # Errors
    /// `NoMemory`.
    pub(crate) fn in_progress(&self) -> Result<Vec<Spot, A>, NoMemory> {
        let mut scripts = Vec::new(self.alloc);
        for one in &self.waiting {
            self.add_code(&mut scripts, one)?;
        }
        commands_of(self.alloc, &scripts)
    }

    /// Adds the scripts that are in progress at the place to which a code has come, which is that
    /// of the run's script where none is in progress yet.
    ///
    /// # Errors
    /// `NoMemory`.
    pub(crate) fn add_code(
        &self,
        scripts: &mut Vec<Progressing, A>,
        placed: &Placed<A>,
    ) -> Result<(), NoMemory> {
        let mut ground = match &placed.text {
            _ if scripts.is_empty() => Some(Spot::whole(&self.script)),
            Some(text) => found_in(&self.script, text, innermost(scripts)),
            None => None,
        };
        let mut in_word = false;
        for level in levels_at(self.alloc, &placed.code, placed.place)?.iter() {
            match &level.stands {
                Stands::Whole => {}
                Stands::Bracket => in_word = true,
                Stands::Formula => ground = None,
                Stands::Argument(text) => {
                    in_word = true;
                    ground = self.word_spot(text, false, scripts);
                }
                Stands::Body(text, is_trimmed) => {
                    in_word = false;
                    ground = self.word_spot(text, *is_trimmed, scripts);
                }
            }
            let command = spot_of(level, ground, in_word);
            scripts.push(Progressing { ground, command })?;
        }
        Ok(())
    }

    /// Where a word that is a text stands, without the white space around it where that is left
    /// out.
    fn word_spot(
        &self,
        text: &Option<Value<A>>,
        is_trimmed: bool,
        scripts: &[Progressing],
    ) -> Option<Spot> {
        let text = text.as_ref()?.as_slice();
        let spot = found_in(&self.script, text, innermost(scripts))?;
        if !is_trimmed {
            return Some(spot);
        }
        let after = text.len().saturating_sub(text.trim_ascii_end().len());
        Some(Spot {
            start: spot.start,
            end: spot.end.saturating_sub(after),
            in_word: spot.in_word,
        })
    }
}

/// The innermost command of these scripts of which it is known where it stands.
fn innermost(scripts: &[Progressing]) -> Option<Spot> {
    scripts.iter().rev().find_map(|one| one.command)
}

/// Where the commands of these scripts stand, of which that is known.
///
/// # Errors
/// `NoMemory`.
pub(crate) fn commands_of<A: Allocator>(
    alloc: A,
    scripts: &[Progressing],
) -> Result<Vec<Spot, A>, NoMemory> {
    let mut spots = Vec::new(alloc);
    for one in scripts {
        if let Some(spot) = one.command {
            spots.push(spot)?;
        }
    }
    Ok(spots)
}

/// Where the command in progress of a script stands, by where the text of the script does.
fn spot_of<A: Allocator>(level: &Level<A>, ground: Option<Spot>, in_word: bool) -> Option<Spot> {
    let ground = ground?;
    let start = ground.end.checked_sub(level.command?)?;
    let end = match level.next {
        Some(next) => ground.end.checked_sub(next)?,
        None => ground.end,
    };
    if start < ground.start {
        return None;
    }
    Some(Spot {
        start,
        end,
        in_word,
    })
}

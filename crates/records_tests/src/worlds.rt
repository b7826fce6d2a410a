//! Acts, and what is answered to them, written and recorded.

use crate::short::{Short, is_front};
use acts::{Act, World};
use memory::NoMemory;
use recorders::Recorder;
use records::{Counted, read_entries, read_record};
use replays::Replay;
use rowfiles::spelled::act_of;
use std::alloc::{Allocator, Global};
use std::cell::Cell;
use tables::{Answers, name, number};
use tcltext::split_list;

/// The table of worlds.
#[derive(Drop)]
pub struct Worlds {
    pub alloc: Global,
}

impl Answers for Worlds {
    fn answer<A: Allocator + Copy>(
        &self,
        row: &[Vec<u8>],
        answer: &mut Vec<u8, A>,
    ) -> Result<(), NoMemory> {
        let told = match row {
            [kind, record, first, second, acts @ ..] => {
                let fields = [record.as_slice(), first.as_slice(), second.as_slice()];
                self.told(name(kind), fields, acts)
            }
            _ => None,
        };
        match told {
            Some(told) => Ok(answer.extend_from_slice(told.as_bytes())?),
            None => Ok(answer.extend_from_slice(b"no row")?),
        }
    }
}

impl Worlds {
    /// What comes of a row.
    fn told(&self, kind: &str, fields: [&[u8]; 3], acts: &[Vec<u8>]) -> Option<String> {
        let [record, first, second] = fields;
        match kind {
            "replay" => replayed(self.alloc, record, number(first), number(second), acts),
            "entries" => replayed_entries(self.alloc, record, acts),
            "record" => recorded_each(self.alloc, record, first, second, acts),
            "rows" => recorded(self.alloc, record, acts),
            _ => None,
        }
    }
}

/// What a world answers to the acts that texts spell.
fn answers_of<W: World<Global>>(alloc: Global, world: &mut W, acts: &[Vec<u8>]) -> Option<String> {
    let mut shown = String::new(alloc);
    for act in acts {
        let answer = world.act(&act_in(alloc, act)?);
        write!(shown, "{answer:?} ").ok()?;
    }
    Some(shown)
}

/// The act that a text spells.
fn act_in(alloc: Global, text: &[u8]) -> Option<Act<Global>> {
    act_of(alloc, &split_list(alloc, text).ok()?).ok()
}

/// What a replay of a record with so much room for what goes out and for errors does, and what was
/// written.
fn replayed(alloc: Global, record: &[u8], out: u64, err: u64, acts: &[Vec<u8>]) -> Option<String> {
    let mut out = vec![in alloc; 0u8; out as usize].ok()?;
    let mut err = vec![in alloc; 0u8; err as usize].ok()?;
    let mut shown = replayed_to(alloc, record, &mut out, &mut err, acts)?;
    push_text(&mut shown, &out)?;
    push_text(&mut shown, &err)?;
    Some(shown)
}

/// Writes a text in angles.
fn push_text(shown: &mut String, bytes: &[u8]) -> Option<()> {
    let text = std::str::from_utf8(bytes).ok()?;
    write!(shown, "<{text}>").ok()
}

/// What a replay of a record answers, whether it had a fault before and has one after, and how
/// often it wrote after that.
fn replayed_to(
    alloc: Global,
    record: &[u8],
    out: &mut [u8],
    err: &mut [u8],
    acts: &[Vec<u8>],
) -> Option<String> {
    let late = Cell::new(0);
    let short = Short {
        inner: Counted::new(out),
        late: &late,
    };
    let mut world = Replay::new(read_record(alloc, record).ok()?, short, Counted::new(err));
    let before = world.fault();
    let shown = answers_of(alloc, &mut world, acts)?;
    let after = world.fault();
    let late = late.get();
    format!(in alloc; "{shown}{before} {after} {late}").ok()
}

/// What a replay of the entries of a record answers, and which act differed.
fn replayed_entries(alloc: Global, record: &[u8], acts: &[Vec<u8>]) -> Option<String> {
    let (mut out, mut err) = ([0u8; 1], [0u8; 1]);
    let mut replay = Replay::of_entries(
        read_entries(alloc, record).ok()?,
        Counted::new(&mut out[..]),
        Counted::new(&mut err[..]),
    );
    let shown = answers_of(alloc, &mut replay, acts)?;
    let differs = replay.differs();
    format!(in alloc; "{shown}{differs:?}").ok()
}

/// For how many numbers of bytes a record of a replay is written as `written` as far as there is
/// room for it, and the acts are answered so.
fn recorded_each(
    alloc: Global,
    record: &[u8],
    written: &[u8],
    answers: &[u8],
    acts: &[Vec<u8>],
) -> Option<String> {
    let mut well = 0u64;
    for room in 0..=written.len() {
        let mut taken = vec![in alloc; 0u8; room].ok()?;
        let told = recorded_to(alloc, record, &mut taken, acts)?;
        let is_told = is_told(told.as_str(), answers, room < written.len());
        let is_well = is_told && is_front(&taken, written, room);
        well = well.saturating_add(if is_well { 1 } else { 0 });
    }
    format!(in alloc; "{well}").ok()
}

/// Whether a recorder told these answers, whether it has failed, and no late write.
fn is_told(told: &str, answers: &[u8], has_failed: bool) -> bool {
    let end = if has_failed { "true 0" } else { "false 0" };
    match told.strip_suffix(end) {
        Some(shown) => shown.as_bytes() == answers,
        None => false,
    }
}

/// What is answered where a replay is recorded to so much room, whether the recorder has a fault
/// after, and how often it wrote after that.
fn recorded_to(alloc: Global, record: &[u8], taken: &mut [u8], acts: &[Vec<u8>]) -> Option<String> {
    let world = Replay::new(
        read_record(alloc, record).ok()?,
        Counted::new(Vec::new(alloc)),
        Counted::new(Vec::new(alloc)),
    );
    let late = Cell::new(0);
    let short = Short {
        inner: Counted::new(taken),
        late: &late,
    };
    let mut recorder = Recorder::new(world, short);
    let shown = answers_of(alloc, &mut recorder, acts)?;
    let fault = recorder.fault();
    let late = late.get();
    format!(in alloc; "{shown}{fault} {late}").ok()
}

/// The first 64 bytes of a record that is made of acts.
fn recorded(alloc: Global, record: &[u8], acts: &[Vec<u8>]) -> Option<String> {
    let mut taken = [0u8; 64];
    let _told = recorded_to(alloc, record, &mut taken, acts)?;
    let text = std::str::from_utf8(&taken).ok()?;
    String::from_str(alloc, text).ok()
}

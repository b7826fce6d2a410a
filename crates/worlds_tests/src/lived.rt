//! Runs in the live world, with programs that nobody here wrote: what they write, why their last
//! act was refused or failed, and their records, by which they are replayed.

use crate::field;
use crate::played::{MOST, play_of, played, push_outputs, room_of, written};
use acts::{Limits, NoMemory, World};
use engine::{End, Unwatched};
use std::alloc::{Allocator, Global};
use std::io::{self, ErrorKind, Write};
use tables::{number, push_shown};
use worlds::lived::{lived, lived_by};
use worlds::recorded::{Refuses, Runner};
use worlds::{Counted, Sink};

/// Writes what comes of a script in the live world, with so many ticks and so much room for its
/// output, and whether its output has failed.
pub fn tell_live<A: Allocator + Copy>(
    rt: &HostRuntime,
    row: &[Vec<u8>],
    answer: &mut Vec<u8, A>,
) -> Result<(), NoMemory> {
    let Some(limits) = Limits::new(number(field(row, 2))) else {
        return Ok(());
    };
    let (mut out, mut err) = ([0u8; MOST], [0u8; MOST]);
    let room = room_of(&mut out, field(row, 3));
    let (status, has_failed) = lived_to(rt, field(row, 1), limits, room, &mut err);
    push_outputs(answer, status, &out, &err)?;
    let word: &[u8] = if has_failed { b" failed" } else { b"" };
    Ok(answer.extend_from_slice(word)?)
}

/// The status of a script in the live world of which no record is made, and whether its output has
/// failed.
fn lived_to(
    rt: &HostRuntime,
    script: &[u8],
    limits: Limits,
    out: &mut [u8],
    err: &mut [u8],
) -> (u8, bool) {
    let (mut out, mut err) = (Counted::new(out), Counted::new(err));
    let mut made: Option<Counted<Vec<u8>>> = None;
    let status = lived(rt, script, &[], limits, &mut out, &mut err, &mut made);
    (status, out.failed())
}

/// Writes the status of a script that is recorded while it is held live, and whether its record
/// replays to the same.
pub fn tell_replayed<A: Allocator + Copy>(
    rt: &HostRuntime,
    row: &[Vec<u8>],
    answer: &mut Vec<u8, A>,
) -> Result<(), NoMemory> {
    let mut record = [0u8; MOST];
    let (mut out, mut err) = ([0u8; MOST], [0u8; MOST]);
    let status = recorded(rt, field(row, 1), &mut out, &mut err, &mut record);
    let (mut shown, mut told) = ([0u8; MOST], [0u8; MOST]);
    let again = match play_of(field(row, 1), written(&record)) {
        Some(call) => played(rt.alloc(), &call, &mut shown, &mut told),
        None => 0,
    };
    let is_same = again == status && written(&shown) == written(&out);
    let word = if is_same && written(&told) == written(&err) {
        "and again"
    } else {
        "and then another"
    };
    push_shown(answer, format_args!("{status} {word}"))
}

/// The status of a script in the live world of which a record is made.
fn recorded(
    rt: &HostRuntime,
    script: &[u8],
    out: &mut [u8],
    err: &mut [u8],
    record: &mut [u8],
) -> u8 {
    let Some(call) = play_of(script, b"") else {
        return 0;
    };
    let (mut out, mut err) = (Counted::new(out), Counted::new(err));
    let mut made = Some(Counted::new(record));
    lived(rt, script, &[], call.limits, &mut out, &mut err, &mut made)
}

/// One who runs scripts, and asks the world of a run why its last act was refused or failed.
#[derive(Drop)]
struct Asking {
    told: Option<io::Error>,
}

impl Runner<Global> for Asking {
    ghost use Rattle.std.specs.Prelude.{⊤};

    // Nothing is kept.
    ghost told = { λ _ _ _. ⊤ };

    ghost stays = { λ _. tt };

    fn run<W: World<Global> + Refuses<Global>, S: Sink>(
        &mut self,
        alloc: Global,
        script: &[u8],
        args: &[Vec<u8>],
        limits: Limits,
        world: &mut W,
        made: &mut Option<S>,
    ) -> Result<End<Global>, NoMemory> {
        let ended = Unwatched.run(alloc, script, args, limits, world, made);
        self.told = world.refusal();
        ended
    }
}

/// A writer that takes so many bytes, and is then closed at its other side.
#[derive(Drop)]
struct Closing {
    room: usize,
}

impl Write for Closing {
    fn write(&mut self, text: &[u8]) -> io::Result<usize> {
        let taken = text.len().min(self.room);
        if taken == 0 {
            return Err(io::Error::from(ErrorKind::BrokenPipe));
        }
        self.room -= taken;
        Ok(taken)
    }

    fn flush(&mut self) -> io::Result<()> {
        Ok(())
    }
}

/// A sink over a writer that has room for as many bytes as a field says.
fn closing_at(field: &[u8]) -> Counted<Closing> {
    Counted::new(Closing {
        room: number(field) as usize,
    })
}

/// Writes why the last act of a script failed, by the kind of the system's error.
pub fn tell_why<A: Allocator + Copy>(
    rt: &HostRuntime,
    row: &[Vec<u8>],
    answer: &mut Vec<u8, A>,
) -> Result<(), NoMemory> {
    match asked(rt, row) {
        Some(error) => push_shown(answer, format_args!("{:?}", error.kind())),
        None => Ok(answer.extend_from_slice(b"none")?),
    }
}

/// Runs a script live with this room for the two outputs, and gives why its last act failed.
fn asked(rt: &HostRuntime, row: &[Vec<u8>]) -> Option<io::Error> {
    let call = play_of(field(row, 1), b"")?;
    let mut asking = Asking { told: None };
    let (mut out, mut err) = (closing_at(field(row, 2)), closing_at(field(row, 3)));
    let mut made: Option<Counted<Vec<u8>>> = None;
    let _status = lived_by(
        rt,
        call.script,
        &[],
        call.limits,
        &mut out,
        &mut err,
        &mut made,
        &mut asking,
    );
    asking.told
}

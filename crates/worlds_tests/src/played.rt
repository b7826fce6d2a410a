//! Scripts under records: writers that fail, records that are made, how much memory is asked for,
//! and memory that is refused.

use crate::field;
use acts::Limits;
use memory::NoMemory;
use refusal::Refusing;
use std::alloc::{Allocator, Global};
use std::io;
use tables::{number, push_shown};
use worlds::play::{play, rerun};
use worlds::{Counted, Entry, read_entries};

/// How many bytes a writer of these tests has room for at most.
pub const MOST: usize = 300;

/// The ticks of a run.
const TICKS: u64 = 100;

/// A script, and the record that it runs under.
#[derive(Clone, Copy)]
pub struct Play<'a> {
    pub script: &'a [u8],
    pub record: &'a [u8],
    pub limits: Limits,
}

/// A script under a record, with the ticks that all these runs may take.
pub fn play_of<'a>(script: &'a [u8], record: &'a [u8]) -> Option<Play<'a>> {
    let limits = Limits::new(TICKS)?;
    Some(Play {
        script,
        record,
        limits,
    })
}

/// Plays a script under its record, with this much room for what is written, and gives the status.
pub fn played<A: Allocator + Copy>(
    alloc: A,
    call: &Play<'_>,
    out: &mut [u8],
    err: &mut [u8],
) -> u8 {
    let args: Vec<Vec<u8, A>, A> = Vec::new(alloc);
    play(
        alloc,
        call.script,
        &args,
        call.limits,
        b"G",
        call.record,
        Counted::new(out),
        Counted::new(err),
    )
}

/// The front of some room, as long as a field says.
pub fn room_of<'a>(room: &'a mut [u8], field: &[u8]) -> &'a mut [u8] {
    let most = room.len().min(number(field) as usize);
    &mut room[..most]
}

/// What was written to room that was empty: the bytes before the first null.
pub fn written(room: &[u8]) -> &[u8] {
    let mut many = 0usize;
    for byte in room {
        if *byte == 0 {
            break;
        }
        many = many.saturating_add(1);
    }
    room.get(..many).unwrap_or(room)
}

/// Writes a status, and what was written to the two outputs.
pub fn push_outputs<A: Allocator + Copy>(
    answer: &mut Vec<u8, A>,
    status: u8,
    out: &[u8],
    err: &[u8],
) -> Result<(), NoMemory> {
    push_shown(answer, format_args!("{status} <"))?;
    answer.extend_from_slice(written(out))?;
    answer.extend_from_slice(b"><")?;
    answer.extend_from_slice(written(err))?;
    Ok(answer.push(b'>')?)
}

/// Writes what comes of a script under a record, with so much room for what is written.
pub fn tell_play<A: Allocator + Copy>(
    rt: &HostRuntime,
    row: &[Vec<u8>],
    answer: &mut Vec<u8, A>,
) -> Result<(), NoMemory> {
    let Some(call) = play_of(field(row, 1), field(row, 2)) else {
        return Ok(());
    };
    let (mut printed, mut told) = ([0u8; MOST], [0u8; MOST]);
    let out = room_of(&mut printed, field(row, 3));
    let err = room_of(&mut told, field(row, 4));
    let status = played(rt.alloc(), &call, out, err);
    push_outputs(answer, status, out, err)
}

/// Writes for how much room a record is made as far as there is room for it, and the run comes out
/// so.
pub fn tell_made<A: Allocator + Copy>(
    rt: &HostRuntime,
    row: &[Vec<u8>],
    answer: &mut Vec<u8, A>,
) -> Result<(), NoMemory> {
    let Some(call) = play_of(field(row, 1), field(row, 2)) else {
        return Ok(());
    };
    let whole = field(row, 3);
    let mut well = 0u64;
    for room in 0..=whole.len() {
        if is_made(rt.alloc(), &call, whole, room) {
            well = well.saturating_add(1);
        }
    }
    push_shown(answer, format_args!("{well} rooms"))
}

/// Whether a record is made as far as there is room for it: where there is too little, the run
/// goes on to its end, and the status and the line are those of a failed writer.
fn is_made(alloc: Global, call: &Play<'_>, whole: &[u8], room: usize) -> bool {
    let Ok(entries) = read_entries(alloc, call.record) else {
        return false;
    };
    let (mut out, mut err, mut taken) = ([0u8; MOST], [0u8; MOST], [0u8; MOST]);
    let made = &mut taken[..room.min(MOST)];
    let status = reran(alloc, call, entries, &mut out, &mut err, made);
    let is_whole = room == whole.len();
    let (wanted, line) = if is_whole {
        (0u8, b"".as_slice())
    } else {
        (4u8, b"rx: output failed\n".as_slice())
    };
    let is_told = status == wanted && written(&err) == line;
    is_told && written(&out) == b"hi\n".as_slice() && made.len() == room && whole.starts_with(made)
}

/// Runs a script again under the entries of its record, with this much room for what is written and
/// for the record that is made, and gives the status.
fn reran(
    alloc: Global,
    call: &Play<'_>,
    entries: Vec<Entry<Global>>,
    out: &mut [u8],
    err: &mut [u8],
    made: &mut [u8],
) -> u8 {
    rerun(
        alloc,
        call.script,
        &[],
        call.limits,
        entries,
        &mut Counted::new(out),
        &mut Counted::new(err),
        &mut Some(Counted::new(made)),
    )
}

/// Writes whether the second of two scripts asks for memory less often than the first.
pub fn tell_again<A: Allocator + Copy>(
    rt: &HostRuntime,
    row: &[Vec<u8>],
    answer: &mut Vec<u8, A>,
) -> Result<(), NoMemory> {
    let own = requests(rt.alloc(), field(row, 1));
    let same = requests(rt.alloc(), field(row, 2));
    let word: &[u8] = match (own, same) {
        (Some(own), Some(same)) if same < own => b"less",
        _ => b"not less",
    };
    Ok(answer.extend_from_slice(word)?)
}

/// How many requests for memory the run of a script makes that performs no act and exits with 0.
fn requests(alloc: Global, script: &[u8]) -> Option<u64> {
    let call = play_of(script, b"rx-record 1\n")?;
    let heap = Refusing::new(alloc);
    let (mut out, mut err) = ([0u8; MOST], [0u8; MOST]);
    let status = played(&heap, &call, &mut out, &mut err);
    let is_silent = written(&out).is_empty() && written(&err).is_empty();
    if status == 0 && is_silent {
        Some(heap.requests())
    } else {
        None
    }
}

/// Prints whether a play that is refused memory says so.
pub fn run_starved<R: Print + AllocGlobal>(rt: &R) -> io::Result<bool> {
    let is_well = are_refusals_told(rt.alloc());
    let word = if is_well { "well" } else { "FAILED" };
    println!(rt; "without memory: {word}")?;
    Ok(is_well)
}

/// Whether a dialogue comes out as it should with each of its requests for memory refused in turn.
fn are_refusals_told(alloc: Global) -> bool {
    let script = b"spawn -noecho cat; send hi; expect -ex hi; puts ok";
    let record = b"rx-record 1\nstarted 100\ndone\narrive exp4 6869\ndone\ndone\ndone\n";
    let Some(call) = play_of(script, record) else {
        return false;
    };
    let heap = Refusing::new(alloc);
    for n in 1..1_000u64 {
        match play_refused(&heap, &call, n) {
            Some(true) => {}
            Some(false) => return 10 < n,
            None => return false,
        }
    }
    false
}

/// Plays a dialogue with this request refused, and says whether it came to that; `None` where it
/// does not come out as it should. It goes on to its end, or writes a beginning and then says that
/// memory was refused.
fn play_refused(heap: &Refusing<Global>, call: &Play<'_>, n: u64) -> Option<bool> {
    let refused = heap.refused();
    heap.refuse_nth(n);
    let (mut out, mut err) = ([0u8; MOST], [0u8; MOST]);
    let status = played(heap, call, &mut out, &mut err);
    let is_refused = heap.refused() != refused;
    let (out, err) = (written(&out), written(&err));
    // A refusal that only keeps a body from being kept is no error.
    let is_well = if status == 0 {
        out == b"hiok\n".as_slice() && err.is_empty()
    } else {
        let is_told = status == 6 && err == b"rx: no memory\n".as_slice();
        is_refused && is_told && b"hiok\n".starts_with(out)
    };
    if is_well { Some(is_refused) } else { None }
}

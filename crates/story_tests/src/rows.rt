//! Histories that rows tell: why a pattern was not found in them, whether it came later, and how
//! much of a long one is kept; and how texts, patterns and lines are spelled.

use acts::Id;
use memory::NoMemory;
use std::alloc::Allocator;
use story::{
    Cause, Ending, Heard, MOST_KEPT, Sought, Style, Vain, Why, came_later, push_line,
    push_shortened, push_sought, push_spelled, push_why, why_in_vain,
};
use tables::{Answers, number, push_angled, push_shown, repeated};

/// How many bytes a buffer may hold at first.
const FIRST_MAX: u32 = 2_000;

/// The id that the patterns of the table are sought for.
const ID: Id = Id(4);

/// A history, and how many bytes each buffer may hold.
#[derive(Drop)]
struct Past<A: Allocator> {
    heard: Heard<A>,
    max: u32,
}

/// The field of a row at a place, or an empty one where there is none.
fn field(row: &[Vec<u8>], place: usize) -> &[u8] {
    match row.get(place) {
        Some(field) => field,
        None => &[],
    }
}

/// The fields of a row from a place on.
fn fields(row: &[Vec<u8>], place: usize) -> &[Vec<u8>] {
    row.get(place..).unwrap_or(&[])
}

/// The history of these events, each during the command of its number, from 1 on: `4<TEXT` for an
/// arrival from `exp4`, `4-N` for N bytes of it that are consumed, and `4=N` for another size of
/// its buffer, and of each buffer from then on.
fn past_of<A: Allocator + Copy>(alloc: A, events: &[Vec<u8>]) -> Result<Past<A>, NoMemory> {
    let mut past = Past {
        heard: Heard::new(alloc),
        max: FIRST_MAX,
    };
    happen_all(&mut past, events)?;
    Ok(past)
}

/// Adds events to an empty history.
fn happen_all<A: Allocator + Copy>(past: &mut Past<A>, events: &[Vec<u8>]) -> Result<(), NoMemory> {
    let mut command = 0u64;
    for event in events {
        command = command.saturating_add(1);
        happen(past, event, Cause(command))?;
    }
    Ok(())
}

/// Adds an event to a history.
fn happen<A: Allocator + Copy>(
    past: &mut Past<A>,
    event: &[u8],
    cause: Cause,
) -> Result<(), NoMemory> {
    let id = Id(number(event.get(..1).unwrap_or(&[])));
    let text = event.get(2..).unwrap_or(&[]);
    match event.get(1) {
        Some(b'<') => past.heard.arrive(id, text, past.max, cause),
        Some(b'-') => past.heard.consume(id, number(text) as usize, cause),
        _ => {
            past.max = u32::try_from(number(text)).unwrap_or(FIRST_MAX);
            past.heard.resize(id, past.max)
        }
    }
}

/// The table of causes.
pub struct Causes;

impl Answers for Causes {
    fn answer<A: Allocator + Copy>(
        &self,
        row: &[Vec<u8>],
        answer: &mut Vec<u8, A>,
    ) -> Result<(), NoMemory> {
        let word = field(row, 1);
        let sought = sought_of(field(row, 2), field(row, 3));
        let events = fields(row, 4);
        if field(row, 0) == b"later".as_slice() {
            tell_later(answer, number(word) as usize, &sought, events)
        } else {
            tell_why(answer, ending_of(word), sought, events)
        }
    }
}

/// What a row seeks, as in `glob`, `exact`, `glob nocase` and `glob lone`.
fn sought_of<'a>(words: &[u8], text: &'a [u8]) -> Sought<'a> {
    let style = if words.starts_with(b"exact") {
        Style::Exact
    } else {
        Style::Glob
    };
    Sought {
        id: ID,
        style,
        text,
        folds: words.ends_with(b"nocase"),
        is_lone: words.ends_with(b"lone"),
    }
}

/// How the wait of a row was over.
fn ending_of(word: &[u8]) -> Ending {
    match word {
        b"ended" => Ending::Ended,
        b"unwaited" => Ending::Unwaited,
        b"other" => Ending::Other,
        _ => Ending::Open,
    }
}

/// Writes why a pattern was not found after these events.
fn tell_why<A: Allocator + Copy>(
    answer: &mut Vec<u8, A>,
    ending: Ending,
    sought: Sought<'_>,
    events: &[Vec<u8>],
) -> Result<(), NoMemory> {
    let past = past_of(*answer.allocator(), events)?;
    let vain = Vain {
        sought,
        window: past.heard.window(ID),
        max: past.max,
        ending,
    };
    tell_vain(answer, &past.heard, &vain)
}

/// Writes why a pattern was sought in vain in a history.
fn tell_vain<A: Allocator + Copy>(
    answer: &mut Vec<u8, A>,
    heard: &Heard<A>,
    vain: &Vain<'_>,
) -> Result<(), NoMemory> {
    let why = why_in_vain(*answer.allocator(), heard, vain)?;
    tell(answer, &why, vain)
}

/// Writes whether a pattern came after the first `count` events, or `none`.
fn tell_later<A: Allocator + Copy>(
    answer: &mut Vec<u8, A>,
    count: usize,
    sought: &Sought<'_>,
    events: &[Vec<u8>],
) -> Result<(), NoMemory> {
    let alloc = *answer.allocator();
    let (came, held) = came_and_held(alloc, events.get(..count).unwrap_or(&[]))?;
    let past = past_of(alloc, events)?;
    match came_later(alloc, &past.heard, sought, came, held) {
        Ok(why) => tell_any(answer, why, sought, past.max),
        Err(refusal) => Err(refusal),
    }
}

/// How many bytes came from the id by these events, and how many of them its window holds.
fn came_and_held<A: Allocator + Copy>(
    alloc: A,
    events: &[Vec<u8>],
) -> Result<(u64, usize), NoMemory> {
    let past = past_of(alloc, events)?;
    Ok((past.heard.came(ID), past.heard.window(ID).len()))
}

/// Writes the cause of what came later, or `none`.
fn tell_any<A: Allocator + Copy>(
    answer: &mut Vec<u8, A>,
    why: Option<Why>,
    sought: &Sought<'_>,
    max: u32,
) -> Result<(), NoMemory> {
    let vain = Vain {
        sought: *sought,
        window: &[],
        max,
        ending: Ending::Open,
    };
    match why {
        Some(why) => tell(answer, &why, &vain),
        None => Ok(answer.extend_from_slice(b"none")?),
    }
}

/// Writes a cause. The place of a command is its number.
fn tell<A: Allocator + Copy>(
    answer: &mut Vec<u8, A>,
    why: &Why,
    vain: &Vain<'_>,
) -> Result<(), NoMemory> {
    let mut place = Vec::new(*answer.allocator());
    push_place(&mut place, why.cause())?;
    push_why(answer, why, vain, &place)
}

/// Writes the number of a command, if there is one.
fn push_place<A: Allocator + Copy>(
    place: &mut Vec<u8, A>,
    cause: Option<Cause>,
) -> Result<(), NoMemory> {
    match cause {
        Some(cause) => push_shown(place, format_args!("command {}", cause.0)),
        None => Ok(()),
    }
}

/// The table of floods: long runs, in which a history keeps its limit.
pub struct Floods;

impl Answers for Floods {
    fn answer<A: Allocator + Copy>(
        &self,
        row: &[Vec<u8>],
        answer: &mut Vec<u8, A>,
    ) -> Result<(), NoMemory> {
        let flood = Flood {
            max: u32::try_from(number(field(row, 0))).unwrap_or(1),
            times: number(field(row, 2)),
            ids: number(field(row, 3)),
        };
        let piece = repeated(*answer.allocator(), b"x", number(field(row, 1)))?;
        tell_flood(answer, flood, &piece)
    }
}

/// How many arrivals there are, from how many ids, and how many bytes a buffer may hold.
#[derive(Clone, Copy)]
struct Flood {
    max: u32,
    times: u64,
    ids: u64,
}

/// Writes what is kept of a flood of this piece.
fn tell_flood<A: Allocator + Copy>(
    answer: &mut Vec<u8, A>,
    flood: Flood,
    piece: &[u8],
) -> Result<(), NoMemory> {
    let mut heard = Heard::new(*answer.allocator());
    arrive_all(&mut heard, flood, piece)?;
    tell_kept(answer, &heard, flood.ids)
}

/// Adds arrivals of a piece from the ids in turn.
fn arrive_all<A: Allocator + Copy>(
    heard: &mut Heard<A>,
    flood: Flood,
    piece: &[u8],
) -> Result<(), NoMemory> {
    let ids = flood.ids.max(1);
    for time in 0..flood.times {
        heard.arrive(Id(time % ids), piece, flood.max, Cause(time))?;
    }
    Ok(())
}

/// Writes how many bytes came from all ids, and whether no more than the limit are kept of them.
fn tell_kept<A: Allocator + Copy>(
    answer: &mut Vec<u8, A>,
    heard: &Heard<A>,
    ids: u64,
) -> Result<(), NoMemory> {
    let mut came = 0u64;
    let mut dropped = 0u64;
    for id in 0..ids {
        came = came.saturating_add(heard.came(Id(id)));
        dropped = dropped.saturating_add(heard.dropped(Id(id)));
    }
    push_shown(answer, came)?;
    let is_within = came.saturating_sub(dropped) <= MOST_KEPT as u64;
    let kept: &[u8] = if is_within {
        b" came"
    } else {
        b" came, and too many are kept"
    };
    Ok(answer.extend_from_slice(kept)?)
}

/// The table of spellings.
pub struct Spellings;

impl Answers for Spellings {
    fn answer<A: Allocator + Copy>(
        &self,
        row: &[Vec<u8>],
        answer: &mut Vec<u8, A>,
    ) -> Result<(), NoMemory> {
        let (first, second) = (field(row, 1), field(row, 2));
        match field(row, 0) {
            b"spelled" => push_spelled(answer, first),
            b"short" => push_shortened(answer, second, number(first) as usize),
            b"line" => push_line(answer, first, second, field(row, 3)),
            b"sought" => push_sought(answer, &sought_by(first, second)),
            b"heard" => tell_heard(answer, Id(number(first)), fields(row, 2)),
            _ => Ok(()),
        }
    }
}

/// What a row `sought` seeks: `exact`, `nocase`, or another word for a glob.
fn sought_by<'a>(word: &[u8], text: &'a [u8]) -> Sought<'a> {
    Sought {
        id: ID,
        style: if word == b"exact".as_slice() {
            Style::Exact
        } else {
            Style::Glob
        },
        text,
        folds: word == b"nocase".as_slice(),
        is_lone: false,
    }
}

/// Writes how many bytes came from an id by these events, how many of them are not kept, and its
/// window.
fn tell_heard<A: Allocator + Copy>(
    answer: &mut Vec<u8, A>,
    id: Id,
    events: &[Vec<u8>],
) -> Result<(), NoMemory> {
    let past = past_of(*answer.allocator(), events)?;
    tell_id(answer, &past.heard, id)
}

/// Writes what a history says of an id.
fn tell_id<A: Allocator + Copy>(
    answer: &mut Vec<u8, A>,
    heard: &Heard<A>,
    id: Id,
) -> Result<(), NoMemory> {
    push_shown(answer, heard.came(id))?;
    answer.push(b' ')?;
    push_shown(answer, heard.dropped(id))?;
    push_angled(answer, heard.window(id))
}

//! Patterns: sought in windows, tested against whole texts, counted, and searched without memory;
//! and long texts.

use crate::scripts::push_repeated;
use crate::texts::{field, push_number, tell_list_fault};
use memory::NoMemory;
use patterns::{Found, Pattern, PatternError, Scratch, Search};
use refusal::Refusing;
use std::alloc::{Allocator, Global};
use std::io;
use tables::{Answers, name, number, push_shown, repeated};
use tcltext::{join_list, read_int, split_list};

/// The table of patterns.
pub struct Patterns;

impl Answers for Patterns {
    fn answer<A: Allocator + Copy>(
        &self,
        row: &[Vec<u8>],
        answer: &mut Vec<u8, A>,
    ) -> Result<(), NoMemory> {
        let kind = name(field(row, 0));
        let (text, window) = (field(row, 1), field(row, 2));
        let outcome = if 3 < row.len() {
            count(
                text,
                window,
                number(field(row, 3)),
                number(field(row, 4)),
                answer,
            )
        } else {
            tell(kind, text, window, answer)
        };
        told(answer, outcome)
    }
}

/// Writes why a text is no pattern, if that is the outcome.
fn told<A: Allocator + Copy>(
    answer: &mut Vec<u8, A>,
    outcome: Result<(), PatternError>,
) -> Result<(), NoMemory> {
    match outcome {
        Ok(()) => Ok(()),
        Err(PatternError::NoMemory(refusal)) => Err(refusal),
        Err(fault) => push_shown(answer, fault),
    }
}

/// Writes whether a pattern takes a whole text, or where it is found in a window.
fn tell<A: Allocator + Copy>(
    kind: &str,
    text: &[u8],
    window: &[u8],
    answer: &mut Vec<u8, A>,
) -> Result<(), PatternError> {
    let alloc = *answer.allocator();
    match kind {
        "whole" => take(Pattern::plain(alloc, text)?, window, answer),
        "folded whole" => take(Pattern::plain(alloc, text)?.fold(), window, answer),
        _ => find(kind, text, window, answer),
    }
}

/// Reads a pattern of a kind: `exact`, `plain`, or another word for a glob; `folded` before it
/// folds letters.
fn read<A: Allocator + Copy>(
    alloc: A,
    kind: &str,
    text: &[u8],
) -> Result<Pattern<A>, PatternError> {
    match kind.strip_prefix("folded ") {
        Some(kind) => Ok(read_plainly(alloc, kind, text)?.fold()),
        None => read_plainly(alloc, kind, text),
    }
}

/// Reads a pattern of a kind that folds no letters.
fn read_plainly<A: Allocator + Copy>(
    alloc: A,
    kind: &str,
    text: &[u8],
) -> Result<Pattern<A>, PatternError> {
    match kind {
        "exact" => Pattern::exact(alloc, text),
        "plain" => Pattern::plain(alloc, text),
        _ => Pattern::glob(alloc, text),
    }
}

/// Searches for a pattern with room for this window.
pub fn search_in<A: Allocator>(
    alloc: A,
    pattern: &Pattern<A>,
    window: &[u8],
) -> Result<Search, PatternError> {
    let Ok(room) = u32::try_from(window.len()) else {
        return Err(PatternError::TooLong);
    };
    let mut scratch = Scratch::new(alloc, room)?;
    Ok(pattern.find(window, &mut scratch))
}

/// Writes whether a pattern takes a text.
fn take<A: Allocator + Copy>(
    pattern: Pattern<A>,
    text: &[u8],
    answer: &mut Vec<u8, A>,
) -> Result<(), PatternError> {
    Ok(push_whether(answer, pattern.whole(text))?)
}

/// Writes where a pattern is found.
fn find<A: Allocator + Copy>(
    kind: &str,
    text: &[u8],
    window: &[u8],
    answer: &mut Vec<u8, A>,
) -> Result<(), PatternError> {
    let search = searched(*answer.allocator(), kind, text, window)?;
    Ok(push_place(answer, search.found)?)
}

/// Reads a pattern, and searches for it.
fn searched<A: Allocator + Copy>(
    alloc: A,
    kind: &str,
    text: &[u8],
    window: &[u8],
) -> Result<Search, PatternError> {
    let pattern = read(alloc, kind, text)?;
    search_in(alloc, &pattern, window)
}

/// Writes where a glob is found in a window repeated `times` times, and how many steps that took if
/// they are 0 or more than `most`.
fn count<A: Allocator + Copy>(
    glob: &[u8],
    window: &[u8],
    times: u64,
    most: u64,
    answer: &mut Vec<u8, A>,
) -> Result<(), PatternError> {
    let window = repeated(*answer.allocator(), window, times)?;
    let search = searched(*answer.allocator(), "glob", glob, &window)?;
    Ok(push_search(answer, search, most)?)
}

/// Writes where a search found something, and how many steps it took if they are 0 or more than
/// `most`.
fn push_search<A: Allocator + Copy>(
    answer: &mut Vec<u8, A>,
    search: Search,
    most: u64,
) -> Result<(), NoMemory> {
    push_place(answer, search.found)?;
    if search.steps == 0 || most < search.steps {
        push_shown(answer, format_args!(" in {} steps", search.steps))?;
    }
    Ok(())
}

/// Writes yes or no.
fn push_whether<A: Allocator>(answer: &mut Vec<u8, A>, holds: bool) -> Result<(), NoMemory> {
    let word: &[u8] = if holds { b"yes" } else { b"no" };
    Ok(answer.extend_from_slice(word)?)
}

/// Writes a place, or that there is none.
fn push_place<A: Allocator + Copy>(
    answer: &mut Vec<u8, A>,
    place: Option<Found>,
) -> Result<(), NoMemory> {
    match place {
        Some(Found { start, end }) => push_shown(answer, format_args!("{start} {end}")),
        None => Ok(answer.extend_from_slice(b"none")?),
    }
}

/// The table of long texts.
pub struct Long;

impl Answers for Long {
    fn answer<A: Allocator + Copy>(
        &self,
        row: &[Vec<u8>],
        answer: &mut Vec<u8, A>,
    ) -> Result<(), NoMemory> {
        if 3 < row.len() {
            find_long(row, answer)
        } else {
            let times = number(field(row, 2));
            let text = repeated(*answer.allocator(), field(row, 1), times)?;
            tell_long(name(field(row, 0)), &text, answer)
        }
    }
}

/// Writes where a long pattern is found in a long window: a beginning, a piece many times, and an
/// end, in a window that repeats a text.
fn find_long<A: Allocator + Copy>(
    row: &[Vec<u8>],
    answer: &mut Vec<u8, A>,
) -> Result<(), NoMemory> {
    let alloc = *answer.allocator();
    let window = repeated(alloc, field(row, 5), number(field(row, 6)))?;
    let mut text = Vec::new(alloc);
    push_pattern(&mut text, row)?;
    let outcome = find(name(field(row, 0)), &text, &window, answer);
    told(answer, outcome)
}

fn push_pattern<A: Allocator + Copy>(
    text: &mut Vec<u8, A>,
    row: &[Vec<u8>],
) -> Result<(), NoMemory> {
    text.extend_from_slice(field(row, 1))?;
    push_repeated(text, field(row, 2), number(field(row, 3)))?;
    Ok(text.extend_from_slice(field(row, 4))?)
}

/// Writes what a long text is: a list, a number, or a pattern that takes itself or does not.
fn tell_long<A: Allocator + Copy>(
    kind: &str,
    text: &[u8],
    answer: &mut Vec<u8, A>,
) -> Result<(), NoMemory> {
    match kind {
        "many" => measure(text, answer),
        "number" => push_number(answer, read_int(text)),
        _ => {
            let outcome = take_itself(kind.strip_prefix("whole ").unwrap_or(kind), text, answer);
            told(answer, outcome)
        }
    }
}

/// Writes the measures of a list.
fn measure<A: Allocator + Copy>(text: &[u8], answer: &mut Vec<u8, A>) -> Result<(), NoMemory> {
    match split_list(*answer.allocator(), text) {
        Ok(list) => push_measures(answer, &list),
        Err(fault) => tell_list_fault(answer, fault),
    }
}

/// Writes how many elements a list has, how long the first one is, and how long the list is
/// written.
fn push_measures<A: Allocator + Copy>(
    answer: &mut Vec<u8, A>,
    list: &[Vec<u8, A>],
) -> Result<(), NoMemory> {
    let many = list.len();
    let first = match list.first() {
        Some(element) => element.len(),
        None => 0,
    };
    let all = join_list(*answer.allocator(), list)?.len();
    let measures = format_args!("{many} elements, {first} bytes in the first, {all} in all");
    push_shown(answer, measures)
}

/// Writes whether a text, read as a pattern, takes the whole text.
fn take_itself<A: Allocator + Copy>(
    kind: &str,
    text: &[u8],
    answer: &mut Vec<u8, A>,
) -> Result<(), PatternError> {
    take(read(*answer.allocator(), kind, text)?, text, answer)
}

/// Prints whether texts are searched and taken without memory.
pub fn run_starved<R: Print + AllocGlobal>(rt: &R) -> io::Result<bool> {
    let is_well = matches!(search_starved(rt.alloc()), Ok(true));
    let word = if is_well { "well" } else { "FAILED" };
    println!(rt; "without memory: {word}")?;
    Ok(is_well)
}

/// Whether patterns are searched without memory.
fn search_starved(alloc: Global) -> Result<bool, PatternError> {
    let heap = Refusing::new(alloc);
    let pattern = Pattern::glob(&heap, b"a[b-d]*c")?;
    is_found_starved(&heap, &heap, pattern)
}

/// Whether a pattern is found and not found, takes a text, and folds letters, while every request
/// for memory is refused.
fn is_found_starved<A: Allocator + Copy>(
    alloc: A,
    heap: &Refusing<Global>,
    pattern: Pattern<A>,
) -> Result<bool, PatternError> {
    heap.refuse_all();
    let before = heap.requests();
    let mut scratch = Scratch::new(alloc, 8)?;
    let found = pattern.find(b"xabccx", &mut scratch).found;
    let missed = pattern.find(b"xxxx", &mut scratch).found;
    let is_taken = pattern.whole(b"adc");
    let folded = pattern.fold().find(b"xAbCcx", &mut scratch).found;
    let place = Some(Found { start: 1, end: 5 });
    let is_all_found = found == place && missed.is_none() && folded == place;
    Ok(is_all_found && is_taken && heap.requests() == before)
}

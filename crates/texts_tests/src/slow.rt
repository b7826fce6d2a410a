//! Two searches as plain as can be, over all pairs of a start and an end, and by the whole table
//! from the right; and the search compared with them, over generated patterns and windows.

ghost use Rattle.std.specs.Prelude.{◌≤◌, length};

use crate::matching::search_in;
use memory::NoMemory;
use patterns::{Found, Pattern, PatternError};
use std::alloc::{AllocError, Global};
use std::io;

/// One item of a glob.
#[derive(Clone, Copy)]
enum Item<'a> {
    Byte(u8),
    /// A byte after a backslash.
    Quoted(u8),
    AnyByte,
    /// The text between the brackets.
    Set(&'a [u8]),
    AnyRun,
}

/// The items of a glob, and the ends of the window that it is tied to.
#[derive(Drop)]
struct Glob<'a> {
    items: Vec<Item<'a>>,
    at_start: bool,
    at_end: bool,
}

/// A set's text, and what stands after its bracket.
fn split_set(text: &[u8]) -> (&[u8], &[u8])
    ensures { length result.1.now ≤ length text.now }
{
    for (place, byte) in text.iter().enumerate() {
        if *byte == b']' {
            return (&text[..place], &text[place + 1..]);
        }
    }
    (text, &[])
}

/// The first item of a glob, and what stands after it.
fn next_item(glob: &[u8]) -> Option<(Item<'_>, &[u8])> {
    let (first, rest) = glob.split_first()?;
    Some(match *first {
        b'*' => (Item::AnyRun, rest),
        b'?' => (Item::AnyByte, rest),
        b'[' => {
            let (set, after) = split_set(rest);
            (Item::Set(set), after)
        }
        b'\\' => quoted_item(rest),
        byte => (Item::Byte(byte), rest),
    })
}

/// The item that a backslash begins, and what stands after it; a backslash at the end is itself.
fn quoted_item(rest: &[u8]) -> (Item<'_>, &[u8]) {
    match rest.split_first() {
        Some((byte, after)) => (Item::Quoted(*byte), after),
        None => (Item::Byte(b'\\'), rest),
    }
}

/// The items of a glob that is tied nowhere.
fn read_items(alloc: Global, glob: &[u8]) -> Result<Vec<Item<'_>>, NoMemory> {
    let mut items = Vec::new(alloc);
    let mut rest = glob;
    for _ in 0..glob.len() {
        let Some((item, after)) = next_item(rest) else {
            break;
        };
        items.push(item)?;
        rest = after;
    }
    Ok(items)
}

/// Reads a glob: `^` as its first byte and `$` as its last item tie it.
fn read_glob(alloc: Global, text: &[u8]) -> Result<Glob<'_>, NoMemory> {
    let body = text.strip_prefix(b"^");
    let mut items = read_items(alloc, body.unwrap_or(text))?;
    let at_end = matches!(items.last(), Some(Item::Byte(b'$')));
    if at_end {
        items.pop();
    }
    Ok(Glob {
        items,
        at_start: body.is_some(),
        at_end,
    })
}

/// Whether one of the ranges of a set's text holds the byte.
fn holds(set: &[u8], byte: u8) -> bool {
    let mut rest = set;
    while let [first, behind @ ..] = rest {
        if let [b'-', last, after @ ..] = behind {
            if *first.min(last) <= byte && byte <= *first.max(last) {
                return true;
            }
            rest = after;
        } else {
            if *first == byte {
                return true;
            }
            rest = behind;
        }
    }
    false
}

impl Item<'_> {
    /// Whether an item takes this one byte.
    fn takes(self, byte: u8) -> bool {
        match self {
            Item::Byte(own) | Item::Quoted(own) => byte == own,
            Item::AnyByte => true,
            Item::Set(set) => holds(set, byte),
            Item::AnyRun => false,
        }
    }
}

/// Whether items take the whole text, by trying each piece.
fn takes(items: &[Item<'_>], text: &[u8]) -> bool {
    match (items, text) {
        ([], _) => text.is_empty(),
        ([Item::AnyRun, rest @ ..], []) => takes(rest, text),
        ([Item::AnyRun, rest @ ..], [_, behind @ ..]) => takes(rest, text) || takes(items, behind),
        ([_, ..], []) => false,
        ([item, rest @ ..], [byte, behind @ ..]) => item.takes(*byte) && takes(rest, behind),
    }
}

/// The match with the least start and, at that start, the greatest end, by trying each pair of
/// places.
fn over_all_pairs(glob: &Glob<'_>, window: &[u8]) -> Option<Found> {
    let starts = if glob.at_start { 1 } else { window.len() + 1 };
    for start in 0..starts {
        for end in (start..window.len() + 1).rev() {
            let part = window.get(start..end)?;
            if takes(&glob.items, part) {
                return Some(Found { start, end });
            }
            if glob.at_end {
                break;
            }
        }
    }
    None
}

/// An entry of a row: the greatest end, from this place on, of the row's item and the items after
/// it, if they have one.
fn entry(row: &[Option<usize>], place: usize) -> Option<usize> {
    row.get(place).copied().unwrap_or(None)
}

/// The entry of a row at a place, made from the row as far as it stands to the right of the place,
/// and from the row of the items after its own.
fn end_at(
    item: Item<'_>,
    row: &[Option<usize>],
    below: &[Option<usize>],
    place: usize,
    byte: Option<&u8>,
) -> Option<usize> {
    if matches!(item, Item::AnyRun) {
        return entry(row, place.saturating_add(1)).max(entry(below, place));
    }
    match byte {
        Some(byte) if item.takes(*byte) => entry(below, place.saturating_add(1)),
        _ => None,
    }
}

/// The row of the table for one item, made from the row of the items after it.
fn row_of(
    alloc: Global,
    item: Item<'_>,
    below: &[Option<usize>],
    window: &[u8],
) -> Result<Vec<Option<usize>>, NoMemory> {
    let mut row = vec![in alloc; None; window.len() + 1]?;
    for place in (0..window.len() + 1).rev() {
        let end = end_at(item, &row, below, place, window.get(place));
        if let Some(slot) = row.get_mut(place) {
            *slot = end;
        }
    }
    Ok(row)
}

/// The row of the table after the last item.
fn last_row(alloc: Global, at_end: bool, window: &[u8]) -> Result<Vec<Option<usize>>, NoMemory> {
    let mut row = Vec::new(alloc);
    for place in 0..window.len() + 1 {
        let is_end = !at_end || place == window.len();
        row.push(if is_end { Some(place) } else { None })?;
    }
    Ok(row)
}

/// The row of the table for the first item, filled from the last item to the first and from the
/// right to the left.
fn first_row(
    alloc: Global,
    glob: &Glob<'_>,
    window: &[u8],
) -> Result<Vec<Option<usize>>, NoMemory> {
    let mut row = last_row(alloc, glob.at_end, window)?;
    for item in glob.items.iter().rev() {
        row = row_of(alloc, *item, &row, window)?;
    }
    Ok(row)
}

/// The first place of a row that has an end, where the search is not tied to the first one.
fn first_found(row: &[Option<usize>], at_start: bool) -> Option<Found> {
    for (start, end) in row.iter().enumerate() {
        if let Some(end) = end {
            return Some(Found { start, end: *end });
        }
        if at_start {
            break;
        }
    }
    None
}

/// The match with the least start and, at that start, the greatest end, by the table.
fn by_table(alloc: Global, glob: &Glob<'_>, window: &[u8]) -> Result<Option<Found>, NoMemory> {
    let row = first_row(alloc, glob, window)?;
    Ok(first_found(&row, glob.at_start))
}

/// How many patterns are made of each kind of letters, and how many windows for each.
const PATTERNS: u64 = 4_000;

const WINDOWS: u64 = 8;

/// How many letters a text has at most.
const MOST_LETTERS: usize = 8;

/// Numbers that look random, the same in each run (a linear congruential generator).
#[derive(Drop)]
struct Random(u64);

impl Random {
    /// A number below `end`, or 0 where `end` is 0.
    fn below(&mut self, end: usize) -> usize {
        self.0 = self
            .0
            .wrapping_mul(6_364_136_223_846_793_005)
            .wrapping_add(1_442_695_040_888_963_407);
        let number = (self.0 >> 33) as usize;
        if end == 0 { 0 } else { number % end }
    }

    /// A text of a few of these letters.
    fn text(&mut self, alloc: Global, letters: &str) -> Result<Vec<u8>, AllocError> {
        let letters = letters.as_bytes();
        let mut text = Vec::new(alloc);
        for _ in 0..self.below(MOST_LETTERS + 1) {
            if let Some(letter) = letters.get(self.below(letters.len())) {
                text.push(*letter)?;
            }
        }
        Ok(text)
    }
}

/// The letters of patterns, and those of the windows in which they are sought.
const LETTERS: [(&str, &str); 4] = [
    ("ab*", "abA"),
    ("abA?*^$", "abAB"),
    ("ab*[]-", "abA-"),
    ("abB*?[]-^$\\", "abB-^$\\]"),
];

/// Prints in how many windows the search finds what the slow ones find, and in which it does not.
pub fn run_random<R: Print + AllocGlobal>(rt: &R) -> io::Result<bool> {
    let mut random = Random(2024);
    let mut agreeing = 0u64;
    for (letters, window_letters) in LETTERS {
        agreeing = agreeing.saturating_add(run_letters(rt, &mut random, letters, window_letters)?);
    }
    println!(rt; "beside slow searches: {agreeing} windows")?;
    Ok(agreeing == 4 * PATTERNS * WINDOWS)
}

/// In how many windows patterns of these letters are found as by the slow searches.
fn run_letters<R: Print + AllocGlobal>(
    rt: &R,
    random: &mut Random,
    letters: &str,
    window_letters: &str,
) -> io::Result<u64> {
    let mut agreeing = 0u64;
    for _ in 0..PATTERNS {
        agreeing = agreeing.saturating_add(run_pattern(rt, random, letters, window_letters)?);
    }
    Ok(agreeing)
}

/// In how many windows a pattern of these letters is found as by the slow searches.
fn run_pattern<R: Print + AllocGlobal>(
    rt: &R,
    random: &mut Random,
    letters: &str,
    window_letters: &str,
) -> io::Result<u64> {
    let glob = random.text(rt.alloc(), letters)?;
    run_glob(rt, random, &glob, window_letters)
}

/// In how many windows of these letters a glob is found as by the slow searches.
fn run_glob<R: Print + AllocGlobal>(
    rt: &R,
    random: &mut Random,
    glob: &[u8],
    letters: &str,
) -> io::Result<u64> {
    let mut agreeing = 0u64;
    for _ in 0..WINDOWS {
        if runs_window(rt, random, glob, letters)? {
            agreeing = agreeing.saturating_add(1);
        }
    }
    Ok(agreeing)
}

/// Whether a glob is found in a window of these letters as by the slow searches.
fn runs_window<R: Print + AllocGlobal>(
    rt: &R,
    random: &mut Random,
    glob: &[u8],
    letters: &str,
) -> io::Result<bool> {
    let window = random.text(rt.alloc(), letters)?;
    let is_well = matches!(agrees(rt.alloc(), glob, &window), Ok(true));
    if !is_well {
        println!(rt; "FAILED {glob:?} in {window:?}")?;
    }
    Ok(is_well)
}

/// Whether the search finds what the slow ones find, and with letters folded what they find in the
/// window in lower case, and whether the pattern takes the whole window where trying each piece
/// does.
fn agrees(alloc: Global, text: &[u8], window: &[u8]) -> Result<bool, PatternError> {
    Ok(agrees_on_find(alloc, text, window)? && agrees_on_whole(alloc, text, window)?)
}

/// Whether a pattern is found where the slow searches find it, with letters folded and not.
fn agrees_on_find(alloc: Global, text: &[u8], window: &[u8]) -> Result<bool, PatternError> {
    let pattern = Pattern::glob(alloc, text)?;
    if !finds(alloc, &pattern, text, window, window)? {
        return Ok(false);
    }
    finds_folded(alloc, &pattern.fold(), text, window)
}

/// Whether a pattern that folds letters is found where the slow searches find it in lower case.
fn finds_folded(
    alloc: Global,
    pattern: &Pattern<Global>,
    text: &[u8],
    window: &[u8],
) -> Result<bool, PatternError> {
    let lower = in_lower_case(alloc, window)?;
    finds(alloc, pattern, text, window, &lower)
}

/// Whether a pattern takes the whole window where trying each piece does.
fn agrees_on_whole(alloc: Global, text: &[u8], window: &[u8]) -> Result<bool, PatternError> {
    let is_whole = Pattern::plain(alloc, text)?.whole(window);
    let items = read_items(alloc, text)?;
    Ok(is_whole == takes(&items, window))
}

/// Whether the search in the window finds what the slow ones find in the bytes as they compare, in
/// no more steps than the table has entries.
fn finds(
    alloc: Global,
    pattern: &Pattern<Global>,
    text: &[u8],
    window: &[u8],
    compared: &[u8],
) -> Result<bool, PatternError> {
    let search = search_in(alloc, pattern, window)?;
    let glob = read_glob(alloc, text)?;
    let rows = (glob.items.len() as u64).saturating_add(1);
    let entries = rows.saturating_mul((window.len() as u64).saturating_add(1));
    Ok(search.steps <= entries && is_found_so(alloc, &glob, compared, search.found)?)
}

/// Whether both slow searches find this.
fn is_found_so(
    alloc: Global,
    glob: &Glob<'_>,
    window: &[u8],
    found: Option<Found>,
) -> Result<bool, NoMemory> {
    Ok(found == over_all_pairs(glob, window) && found == by_table(alloc, glob, window)?)
}

/// The letters of these windows in lower case.
fn in_lower_case(alloc: Global, window: &[u8]) -> Result<Vec<u8>, NoMemory> {
    let mut lower = Vec::new(alloc);
    for letter in window {
        lower.push(match letter {
            b'A' => b'a',
            b'B' => b'b',
            other => *other,
        })?;
    }
    Ok(lower)
}

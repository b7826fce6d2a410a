//! Calls of a table of ids that are refused memory: each leaves all as it was. Where one does not,
//! a row is answered although memory was refused, and so it fails.

use crate::ids::{opened, push_id, push_rows, three_ids};
use acts::{Id, NoMemory, Row};
use dialog::{BranchError, Branches, Effective, Kind, Side, Standing, Table, Trigger};
use matchbuf::MatchBufError;
use std::alloc::Allocator;
use tables::{Answers, push_shown};
use tcltext::Value;

/// The table of what is refused.
pub struct Refusals;

impl Answers for Refusals {
    fn answer<A: Allocator + Copy>(
        &self,
        row: &[Vec<u8>],
        answer: &mut Vec<u8, A>,
    ) -> Result<(), NoMemory> {
        let [kind, fields @ ..] = row else {
            return Ok(());
        };
        match (kind.as_slice(), fields) {
            (b"open", []) => open(answer),
            (b"size", []) => set_size(answer),
            (b"fill", []) => fill(answer),
            (b"choose", [word]) => choose(answer, word),
            (b"branches", [word]) => read(answer, word),
            (b"stand", [first, second]) => stand(answer, first, second),
            _ => Ok(()),
        }
    }
}

/// A row by its numbers.
fn row(id: u64, held: u32, max: u32, want: u32) -> Row {
    Row {
        id: Id(id),
        held,
        max,
        want,
    }
}

/// Whether a table is as `three_ids` makes it.
fn is_as_made<A: Allocator + Copy>(alloc: A, table: &Table<A>) -> Result<bool, NoMemory> {
    let rows = table.rows(alloc, &[Id(4), Id(5), Id(6), Id(7)])?;
    let made = [row(4, 3, 2_000, 1_997), row(5, 10, 10, 5), row(6, 0, 7, 7)];
    Ok(rows.as_slice() == made.as_slice() && table.next_id() == Some(Id(7)))
}

/// Hands a refusal on, where the table is as it was made.
fn refused<A: Allocator + Copy>(
    alloc: A,
    table: &Table<A>,
    refusal: NoMemory,
) -> Result<(), NoMemory> {
    if is_as_made(alloc, table)? {
        Err(refusal)
    } else {
        Ok(())
    }
}

/// Opens a further id.
fn open<A: Allocator + Copy>(answer: &mut Vec<u8, A>) -> Result<(), NoMemory> {
    let alloc = *answer.allocator();
    let mut table = three_ids(alloc)?;
    match opened(table.open(alloc, Kind::Process(102), 20, true)) {
        Ok(id) => push_id(answer, id),
        Err(refusal) => refused(alloc, &table, refusal),
    }
}

/// Sets the size of `exp4`, first to one that there is not.
fn set_size<A: Allocator + Copy>(answer: &mut Vec<u8, A>) -> Result<(), NoMemory> {
    let mut table = three_ids(*answer.allocator())?;
    set_sizes(answer, &mut table)
}

/// The same, in a table of three ids.
fn set_sizes<A: Allocator + Copy>(
    answer: &mut Vec<u8, A>,
    table: &mut Table<A>,
) -> Result<(), NoMemory> {
    let alloc = *answer.allocator();
    if !table.is_open(Id(4)) || table.set_max(Id(4), 0) != Err(MatchBufError::Size) {
        return Ok(());
    }
    if !is_as_made(alloc, table)? || !table.is_open(Id(4)) {
        return Ok(());
    }
    match table.set_max(Id(4), 3) {
        Ok(()) => push_first_row(answer, table),
        Err(MatchBufError::NoMemory(refusal)) => refused(alloc, table, refusal),
        Err(MatchBufError::Size) => Ok(()),
    }
}

/// Writes the row of `exp4`, the first id.
fn push_first_row<A: Allocator + Copy>(
    answer: &mut Vec<u8, A>,
    table: &Table<A>,
) -> Result<(), NoMemory> {
    let rows = table.rows(*answer.allocator(), &[Id(4)])?;
    push_rows(answer, &rows)
}

/// Fills a vector with rows, of which a refusal leaves the first.
fn fill<A: Allocator + Copy>(answer: &mut Vec<u8, A>) -> Result<(), NoMemory> {
    let alloc = *answer.allocator();
    let table = three_ids(alloc)?;
    let ids = [
        Id(6),
        Id(5),
        Id(4),
        Id(6),
        Id(5),
        Id(4),
        Id(6),
        Id(5),
        Id(4),
    ];
    let all = table.rows(alloc, &ids)?;
    fill_anew(answer, &table, &ids, &all)
}

/// Fills a vector that has a row with the rows of these ids, which are known.
fn fill_anew<A: Allocator + Copy>(
    answer: &mut Vec<u8, A>,
    table: &Table<A>,
    ids: &[Id],
    all: &[Row],
) -> Result<(), NoMemory> {
    let alloc = *answer.allocator();
    let mut rows = Vec::new(alloc);
    rows.push(row(9, 9, 9, 9))?;
    match table.fill(&mut rows, ids) {
        Ok(()) => push_rows(answer, &rows),
        Err(refusal) if rows.len() < all.len() && all.starts_with(&rows) => {
            refused(alloc, table, refusal)
        }
        Err(_) => Ok(()),
    }
}

/// The words of an `expect` with one branch.
fn words<A: Allocator + Copy>(alloc: A, pattern: &[u8]) -> Result<Vec<Value<A>, A>, NoMemory> {
    let mut words = Vec::new(alloc);
    words.push(Value::from_slice(alloc, b"-ex")?)?;
    words.push(Value::from_slice(alloc, pattern)?)?;
    words.push(Value::from_slice(alloc, b"puts found")?)?;
    Ok(words)
}

/// The branches of an `expect` with one branch, where `exp4` is in force; `None` where its words
/// are in error.
fn branches<A: Allocator + Copy>(
    alloc: A,
    table: &Table<A>,
    pattern: &[u8],
) -> Result<Option<Branches<A>>, NoMemory> {
    let words = words(alloc, pattern)?;
    match Branches::read(alloc, &words, Some(Id(4)), false, table) {
        Ok(branches) => Ok(Some(branches)),
        Err(BranchError::NoMemory(refusal)) => Err(refusal),
        Err(_) => Ok(None),
    }
}

/// Chooses among branches, and writes the row of the id that is left.
fn choose<A: Allocator + Copy>(answer: &mut Vec<u8, A>, pattern: &[u8]) -> Result<(), NoMemory> {
    let alloc = *answer.allocator();
    let mut table = three_ids(alloc)?;
    match branches(alloc, &table, pattern)? {
        Some(branches) => select(answer, &mut table, &branches),
        None => Ok(()),
    }
}

/// Chooses among these branches, and writes the row of the id that is left.
fn select<A: Allocator + Copy>(
    answer: &mut Vec<u8, A>,
    table: &mut Table<A>,
    branches: &Branches<A>,
) -> Result<(), NoMemory> {
    let alloc = *answer.allocator();
    match table.select(alloc, branches.pairs(), Trigger::Entry) {
        Ok(Some(_)) => push_first_row(answer, table),
        Ok(None) => Ok(()),
        Err(refusal) => refused(alloc, table, refusal),
    }
}

/// Reads branches, and writes which ids they name and how many they are.
fn read<A: Allocator + Copy>(answer: &mut Vec<u8, A>, pattern: &[u8]) -> Result<(), NoMemory> {
    let alloc = *answer.allocator();
    let table = three_ids(alloc)?;
    match branches(alloc, &table, pattern)? {
        Some(branches) => tell_branches(answer, &branches),
        None => Ok(()),
    }
}

/// Writes which ids branches name and how many they are.
fn tell_branches<A: Allocator + Copy>(
    answer: &mut Vec<u8, A>,
    branches: &Branches<A>,
) -> Result<(), NoMemory> {
    for id in branches.named() {
        push_id(answer, Some(*id))?;
    }
    let count = branches.pairs().len();
    push_shown(answer, format_args!(" {count}"))
}

/// Puts branches beside others that stand for the same id, and writes how many pairs stand.
fn stand<A: Allocator + Copy>(
    answer: &mut Vec<u8, A>,
    first: &[u8],
    second: &[u8],
) -> Result<(), NoMemory> {
    let alloc = *answer.allocator();
    let table = three_ids(alloc)?;
    let first = branches(alloc, &table, first)?;
    let second = branches(alloc, &table, second)?;
    match (first, second) {
        (Some(first), Some(second)) => put_both(answer, &first, &second),
        _ => Ok(()),
    }
}

/// Puts branches beside others, and writes how many pairs stand.
fn put_both<A: Allocator + Copy>(
    answer: &mut Vec<u8, A>,
    first: &Branches<A>,
    second: &Branches<A>,
) -> Result<(), NoMemory> {
    let alloc = *answer.allocator();
    let mut standing = Standing::new(alloc);
    standing.put(alloc, Side::Before, first)?;
    let put = standing.put(alloc, Side::Before, second);
    let gathered = Effective::new(alloc, &standing, second).err();
    let (before, after) = (standing.pairs_before().len(), standing.pairs_after().len());
    if before == 1 && after == 0 {
        put?;
        if let Some(refusal) = gathered {
            return Err(refusal);
        }
    }
    push_shown(answer, format_args!("{before} before, {after} after"))
}

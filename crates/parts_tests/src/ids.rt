//! What a table reports about its ids.

use acts::{Id, NoMemory, Row};
use dialog::{Kind, OpenError, Table};
use std::alloc::Allocator;
use tables::{Answers, push_shown};

/// The table of what is told about three ids.
pub struct Ids;

impl Answers for Ids {
    fn answer<A: Allocator + Copy>(
        &self,
        row: &[Vec<u8>],
        answer: &mut Vec<u8, A>,
    ) -> Result<(), NoMemory> {
        let [kind, fields @ ..] = row else {
            return Ok(());
        };
        match kind.as_slice() {
            b"rows" => tell_rows(answer, fields),
            b"anew" => tell_rows_anew(answer),
            b"sums" => tell_sums(answer),
            _ => tell_oldest(answer),
        }
    }
}

/// Three ids: `exp4` with 3 of 2,000 bytes, `exp5` with 10 of 10, and `exp6` with none of 7.
pub fn three_ids<A: Allocator + Copy>(alloc: A) -> Result<Table<A>, NoMemory> {
    let mut table = Table::new(alloc);
    opened(table.open(alloc, Kind::Process(100), 2_000, true))?;
    opened(table.open(alloc, Kind::Socket, 10, false))?;
    opened(table.open(alloc, Kind::Process(101), 7, true))?;
    table.arrive(Id(4), b"a\0bc");
    table.arrive(Id(5), b"0123456789ab");
    Ok(table)
}

/// The id that was opened; `None` where there are too many.
pub fn opened(opening: Result<Id, OpenError>) -> Result<Option<Id>, NoMemory> {
    match opening {
        Ok(id) => Ok(Some(id)),
        Err(OpenError::NoMemory(refusal)) => Err(refusal),
        Err(OpenError::TooMany) => Ok(None),
    }
}

/// Writes rows by their numbers.
pub fn push_rows<A: Allocator + Copy>(
    answer: &mut Vec<u8, A>,
    rows: &[Row],
) -> Result<(), NoMemory> {
    for row in rows {
        let (id, held, max, want) = (row.id.0, row.held, row.max, row.want);
        push_shown(answer, format_args!("<{id} {held} {max} {want}>"))?;
    }
    Ok(())
}

/// Writes an id by its number.
pub fn push_id<A: Allocator + Copy>(
    answer: &mut Vec<u8, A>,
    id: Option<Id>,
) -> Result<(), NoMemory> {
    match id {
        Some(id) => push_shown(answer, id.0),
        None => Ok(answer.push(b'-')?),
    }
}

/// Writes the rows of the ids that these fields spell, in their order.
fn tell_rows<A: Allocator + Copy>(
    answer: &mut Vec<u8, A>,
    fields: &[Vec<u8>],
) -> Result<(), NoMemory> {
    let table = three_ids(*answer.allocator())?;
    let mut ids = Vec::new(*answer.allocator());
    for field in fields {
        if let Some(id) = Id::read(field) {
            ids.push(id)?;
        }
    }
    let rows = table.rows(*answer.allocator(), &ids)?;
    push_rows(answer, &rows)
}

/// Writes the rows of `exp4` and `exp6` as they are written anew, after bytes have arrived at the
/// one and the other was closed.
fn tell_rows_anew<A: Allocator + Copy>(answer: &mut Vec<u8, A>) -> Result<(), NoMemory> {
    let mut table = three_ids(*answer.allocator())?;
    let mut rows = table.rows(*answer.allocator(), &[Id(4), Id(6)])?;
    table.arrive(Id(6), b"abcd");
    table.close(Id(4));
    table.refresh(&mut rows);
    push_rows(answer, &rows)
}

/// Writes how many bytes the buffers hold and may hold, and the same once `exp5` is closed.
fn tell_sums<A: Allocator + Copy>(answer: &mut Vec<u8, A>) -> Result<(), NoMemory> {
    let mut table = three_ids(*answer.allocator())?;
    let (held, allowed) = (table.held(), table.allowed());
    table.close(Id(5));
    let (less, fewer) = (table.held(), table.allowed());
    push_shown(
        answer,
        format_args!("{held} of {allowed}, {less} of {fewer}"),
    )
}

/// Writes the least open id and the one that is closed, four times.
fn tell_oldest<A: Allocator + Copy>(answer: &mut Vec<u8, A>) -> Result<(), NoMemory> {
    let mut table = three_ids(*answer.allocator())?;
    for _ in 0..4u32 {
        push_id(answer, table.first())?;
        push_id(answer, table.close_oldest())?;
    }
    Ok(())
}

//! Keys that are looked for where they were put.

use hints::{Hints, Table, found_near, new_table, place_near};
use memory::NoMemory;
use std::alloc::Allocator;
use tables::{Answers, push_shown};

/// The table of keys and their places.
pub struct Places;

impl Answers for Places {
    fn answer<A: Allocator + Copy>(
        &self,
        row: &[Vec<u8>],
        answer: &mut Vec<u8, A>,
    ) -> Result<(), NoMemory> {
        let [keys, gone, key] = row else {
            return Ok(());
        };
        let mut hints = Hints::new();
        let mut table = put_all(*answer.allocator(), keys, &mut hints)?;
        table.shift_remove(gone.as_slice());
        tell_place(answer, &hints, &table, key)
    }
}

/// Writes where a key is looked for, what is found there, and at which place it is.
fn tell_place<A: Allocator + Copy>(
    answer: &mut Vec<u8, A>,
    hints: &Hints<16>,
    table: &Table<usize, A>,
    key: &[u8],
) -> Result<(), NoMemory> {
    let place = hints.place(key);
    push_shown(answer, place)?;
    tell(answer, found_near(table, place, key).copied())?;
    tell(answer, place_near(table, place, key))
}

/// A table into which each of these bytes is put as a key, with how many keys it had before, and
/// with the place noted.
fn put_all<A: Allocator + Copy>(
    alloc: A,
    keys: &[u8],
    hints: &mut Hints<16>,
) -> Result<Table<usize, A>, NoMemory> {
    let mut table = new_table(alloc);
    for byte in keys {
        put(alloc, &mut table, *byte, hints)?;
    }
    Ok(table)
}

/// Puts this byte in as a key.
fn put<A: Allocator + Copy>(
    alloc: A,
    table: &mut Table<usize, A>,
    byte: u8,
    hints: &mut Hints<16>,
) -> Result<(), NoMemory> {
    let key = Vec::from_slice(alloc, &[byte])?;
    let place = table.len();
    hints.note(&key, place);
    table.insert(key, place)?;
    Ok(())
}

/// Writes a number, or that there is none.
fn tell<A: Allocator + Copy>(
    answer: &mut Vec<u8, A>,
    number: Option<usize>,
) -> Result<(), NoMemory> {
    answer.push(b' ')?;
    match number {
        Some(number) => push_shown(answer, number),
        None => Ok(answer.extend_from_slice(b"none")?),
    }
}

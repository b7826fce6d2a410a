//! Texts: escapes, blanks, braces that pair up, lists, and whole numbers.

use memory::NoMemory;
use std::alloc::Allocator;
use tables::{Answers, name, number, push_angled, push_shown};
use tcltext::{
    ListFault, Value, braces, escape, join_list, join_values, print_int, print_nat, push_element,
    read_int, split_list, split_values,
};

/// The field of a row at a place, or an empty one where there is none.
pub fn field(row: &[Vec<u8>], place: usize) -> &[u8] {
    match row.get(place) {
        Some(field) => field,
        None => &[],
    }
}

/// The fields of a row from a place on.
fn fields(row: &[Vec<u8>], place: usize) -> &[Vec<u8>] {
    row.get(place..).unwrap_or(&[])
}

/// The table of escapes.
pub struct Escapes;

impl Answers for Escapes {
    fn answer<A: Allocator + Copy>(
        &self,
        row: &[Vec<u8>],
        answer: &mut Vec<u8, A>,
    ) -> Result<(), NoMemory> {
        let text = field(row, 1);
        match name(field(row, 0)) {
            "escape" => read_escape(text, answer),
            "brace" => split_braces(text, answer),
            _ => Ok(answer.extend_from_slice(escape::skip_blanks(text))?),
        }
    }
}

fn read_escape<A: Allocator + Copy>(text: &[u8], answer: &mut Vec<u8, A>) -> Result<(), NoMemory> {
    match escape::read(text) {
        Ok((byte, rest)) => {
            push_angled(answer, &[byte])?;
            push_angled(answer, rest)
        }
        Err(fault) => push_shown(answer, fault),
    }
}

fn split_braces<A: Allocator>(text: &[u8], answer: &mut Vec<u8, A>) -> Result<(), NoMemory> {
    match braces::split(text) {
        Some((content, rest)) => {
            push_angled(answer, content)?;
            push_angled(answer, rest)
        }
        None => Ok(answer.extend_from_slice(b"open")?),
    }
}

/// The table of numbers.
pub struct Numbers;

impl Answers for Numbers {
    fn answer<A: Allocator + Copy>(
        &self,
        row: &[Vec<u8>],
        answer: &mut Vec<u8, A>,
    ) -> Result<(), NoMemory> {
        let text = field(row, 1);
        match name(field(row, 0)) {
            "int" => write_int(text, answer),
            "nat" => write_nat(text, answer),
            _ => push_number(answer, read_int(text)),
        }
    }
}

/// Writes a number, or that there is none.
pub fn push_number<A: Allocator + Copy>(
    answer: &mut Vec<u8, A>,
    number: Option<i64>,
) -> Result<(), NoMemory> {
    match number {
        Some(value) => push_shown(answer, value),
        None => Ok(answer.extend_from_slice(b"none")?),
    }
}

/// The number that a text spells, or 1; it may be below 0.
fn signed(text: &[u8]) -> i64 {
    match std::str::from_utf8(text) {
        Ok(text) => text.parse::<i64>().unwrap_or(1),
        Err(_) => 1,
    }
}

fn write_int<A: Allocator + Copy>(text: &[u8], answer: &mut Vec<u8, A>) -> Result<(), NoMemory> {
    let written = print_int(*answer.allocator(), signed(text))?;
    Ok(answer.extend_from_slice(&written)?)
}

fn write_nat<A: Allocator + Copy>(text: &[u8], answer: &mut Vec<u8, A>) -> Result<(), NoMemory> {
    let written = print_nat(*answer.allocator(), number(text))?;
    Ok(answer.extend_from_slice(&written)?)
}

/// The table of lists, which are read, and written in their canonical spellings.
pub struct Lists;

impl Answers for Lists {
    fn answer<A: Allocator + Copy>(
        &self,
        row: &[Vec<u8>],
        answer: &mut Vec<u8, A>,
    ) -> Result<(), NoMemory> {
        let text = field(row, 1);
        let outcome = match name(field(row, 0)) {
            "list" => read_list(text, answer),
            "values" => read_values(text, answer),
            "again" => write_values(text, answer),
            "push" => write_element(text, answer),
            _ => write_list(fields(row, 1), answer),
        };
        match outcome {
            Ok(()) => Ok(()),
            Err(fault) => tell_list_fault(answer, fault),
        }
    }
}

/// Writes why a text is no list. A refusal of memory is handed on.
pub fn tell_list_fault<A: Allocator + Copy>(
    answer: &mut Vec<u8, A>,
    fault: ListFault,
) -> Result<(), NoMemory> {
    match fault {
        ListFault::NoMemory(refusal) => Err(refusal),
        fault => push_shown(answer, fault),
    }
}

fn read_list<A: Allocator + Copy>(text: &[u8], answer: &mut Vec<u8, A>) -> Result<(), ListFault> {
    let list = split_list(*answer.allocator(), text)?;
    Ok(push_elements(answer, &list)?)
}

fn push_elements<A: Allocator + Copy>(
    answer: &mut Vec<u8, A>,
    list: &[Vec<u8, A>],
) -> Result<(), NoMemory> {
    for element in list {
        push_angled(answer, element)?;
    }
    Ok(())
}

fn read_values<A: Allocator + Copy>(text: &[u8], answer: &mut Vec<u8, A>) -> Result<(), ListFault> {
    let list = split_values(*answer.allocator(), text)?;
    Ok(push_values(answer, &list)?)
}

fn push_values<A: Allocator + Copy>(
    answer: &mut Vec<u8, A>,
    list: &[Value<A>],
) -> Result<(), NoMemory> {
    for value in list {
        push_angled(answer, value.as_slice())?;
    }
    Ok(())
}

fn write_values<A: Allocator + Copy>(
    text: &[u8],
    answer: &mut Vec<u8, A>,
) -> Result<(), ListFault> {
    let list = split_values(*answer.allocator(), text)?;
    Ok(push_joined(answer, &list)?)
}

fn push_joined<A: Allocator + Copy>(
    answer: &mut Vec<u8, A>,
    list: &[Value<A>],
) -> Result<(), NoMemory> {
    let written = join_values(*answer.allocator(), list)?;
    Ok(answer.extend_from_slice(&written)?)
}

/// Writes the spelling of an element that stands first in a list, a blank, and the spelling of one
/// that does not.
fn write_element<A: Allocator>(element: &[u8], answer: &mut Vec<u8, A>) -> Result<(), ListFault> {
    push_element(answer, true, element)?;
    answer.push(b' ')?;
    push_element(answer, false, element)?;
    Ok(())
}

/// Writes a list, and says so where it reads back as another one.
fn write_list<A: Allocator + Copy>(
    elements: &[Vec<u8>],
    answer: &mut Vec<u8, A>,
) -> Result<(), ListFault> {
    let list = copies_of(*answer.allocator(), elements)?;
    push_list(answer, &list)
}

/// Copies of elements, held by another allocator.
fn copies_of<A: Allocator + Copy>(
    alloc: A,
    elements: &[Vec<u8>],
) -> Result<Vec<Vec<u8, A>, A>, NoMemory> {
    let mut list = Vec::new(alloc);
    for element in elements {
        list.push(Vec::from_slice(alloc, element)?)?;
    }
    Ok(list)
}

fn push_list<A: Allocator + Copy>(
    answer: &mut Vec<u8, A>,
    list: &[Vec<u8, A>],
) -> Result<(), ListFault> {
    let written = join_list(*answer.allocator(), list)?;
    push_text_of(answer, &written, list)
}

/// Writes the text of a list, and says so where it reads back as another one.
fn push_text_of<A: Allocator + Copy>(
    answer: &mut Vec<u8, A>,
    text: &[u8],
    list: &[Vec<u8, A>],
) -> Result<(), ListFault> {
    answer.extend_from_slice(text)?;
    if !is_read_as(*answer.allocator(), text, list)? {
        answer.extend_from_slice(b", but it is read as another list")?;
    }
    Ok(())
}

/// Whether a text is read as this list.
fn is_read_as<A: Allocator + Copy>(
    alloc: A,
    text: &[u8],
    list: &[Vec<u8, A>],
) -> Result<bool, ListFault> {
    let read = split_list(alloc, text)?;
    Ok(read.as_slice() == list)
}

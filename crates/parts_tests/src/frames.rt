//! A frame of variables on top of the others.

use memory::NoMemory;
use std::alloc::Allocator;
use tables::{Answers, push_angled};
use tclstate::{ScopeError, Scopes};
use tcltext::Value;

/// The table of frames.
pub struct Frames;

impl Answers for Frames {
    fn answer<A: Allocator + Copy>(
        &self,
        row: &[Vec<u8>],
        answer: &mut Vec<u8, A>,
    ) -> Result<(), NoMemory> {
        let [outer, inner] = row else {
            return Ok(());
        };
        let mut scopes = Scopes::new(*answer.allocator());
        tell_frames(answer, &mut scopes, outer, inner)
    }
}

/// Writes what `x` holds in the frame below and in the one on top, one after the other.
fn tell_frames<A: Allocator + Copy>(
    answer: &mut Vec<u8, A>,
    scopes: &mut Scopes<A>,
    outer: &[u8],
    inner: &[u8],
) -> Result<(), NoMemory> {
    let alloc = *answer.allocator();
    set(alloc, scopes, outer)?;
    tell(answer, scopes)?;
    if let Err(refusal) = scopes.push_frame(alloc) {
        // What answers here although memory was refused fails the row.
        return if holds(scopes, outer) {
            Err(refusal)
        } else {
            Ok(())
        };
    }
    tell(answer, scopes)?;
    set(alloc, scopes, inner)?;
    tell(answer, scopes)?;
    scopes.pop_frame();
    tell(answer, scopes)
}

/// Sets the variable `x`.
fn set<A: Allocator + Copy>(alloc: A, scopes: &mut Scopes<A>, text: &[u8]) -> Result<(), NoMemory> {
    match scopes.set(alloc, b"x", None, Value::from_slice(alloc, text)?) {
        Err(ScopeError::NoMemory(refusal)) => Err(refusal),
        _ => Ok(()),
    }
}

/// Whether the variable `x` is there and holds this text.
fn holds<A: Allocator + Copy>(scopes: &Scopes<A>, text: &[u8]) -> bool {
    match scopes.get(b"x", None) {
        Ok(value) => value.as_slice() == text,
        Err(_) => false,
    }
}

/// Writes what the variable `x` holds, if it is there.
fn tell<A: Allocator + Copy>(answer: &mut Vec<u8, A>, scopes: &Scopes<A>) -> Result<(), NoMemory> {
    match scopes.get(b"x", None) {
        Ok(value) => push_angled(answer, value.as_slice()),
        Err(_) => Ok(answer.push(b'-')?),
    }
}

//! Scripts where memory is refused: they are answered also where it is refused for keeping them
//! alone, so that no table can say when there has to be an answer.

use crate::kept_texts::commands_in;
use kept::Kept;
use refusal::Refusing;
use std::alloc::{Allocator, Global};
use std::io;

/// Prints whether scripts are answered and kept as they should be.
pub fn run_starved<R: Print + AllocGlobal>(rt: &R) -> io::Result<bool> {
    let is_well = are_scripts_answered(rt.alloc());
    let word = if is_well { "well" } else { "FAILED" };
    println!(rt; "without memory: {word}")?;
    Ok(is_well)
}

/// Whether a script is answered where only keeping it is refused, and where it is refused nothing
/// is kept.
fn are_scripts_answered(alloc: Global) -> bool {
    let heap = Refusing::new(alloc);
    let mut in_vain = 0u64;
    for n in 1..60u64 {
        match read_refused(&heap, &heap, n) {
            Some(true) => in_vain = in_vain.saturating_add(1),
            Some(false) => {}
            None => return false,
        }
    }
    0 < in_vain
}

/// Reads a text with this request refused, and says whether it was read all the same; `None` where
/// what is kept is not as it should be.
fn read_refused<A: Allocator + Copy, B: Allocator>(
    alloc: A,
    heap: &Refusing<B>,
    n: u64,
) -> Option<bool> {
    let mut kept = Kept::new(alloc);
    let before = heap.refused();
    heap.refuse_nth(n);
    let read = kept.get(b"puts [a b]");
    let is_refused = heap.refused() > before;
    heap.refuse_none();
    if kept.len() != usize::from(!is_refused) {
        return None;
    }
    match read {
        Ok(script) if commands_in(&script) == 2 => Some(is_refused),
        Err(_) if is_refused => Some(false),
        _ => None,
    }
}

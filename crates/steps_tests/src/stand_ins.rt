//! Commands that stand in for those of a script: what comes of each, by its name.

use memory::NoMemory;
use state::{Code, Leave, Outcome};
use std::alloc::Allocator;
use tables::name;
use tcltext::Value;

/// What comes of a command with these words: `break`, `continue`, `error` and `return` end their
/// script with their codes, `count` has as its value how often there was one, and each other
/// command has the value `v`.
pub fn outcome_of<A: Allocator + Copy>(
    alloc: A,
    words: &[Value<A>],
    counts: &mut u8,
) -> Result<Outcome<A>, NoMemory> {
    let first = match words {
        [first, ..] => name(first.as_slice()),
        [] => "",
    };
    match first {
        "break" => Ok(Err(Leave::Coded(Code::Break, Value::empty()))),
        "continue" => Ok(Err(Leave::Coded(Code::Continue, Value::empty()))),
        "error" => leaves(alloc, Code::Error, words),
        "return" => leaves(alloc, Code::Return, words),
        "count" => {
            *counts = counts.saturating_add(1);
            let digit = [b'0'.saturating_add(*counts)];
            Ok(Ok(Value::from_slice(alloc, &digit)?))
        }
        _ => Ok(Ok(Value::from_slice(alloc, b"v")?)),
    }
}

/// The script ends with a code, and with the word after the name as its value.
fn leaves<A: Allocator + Copy>(
    alloc: A,
    code: Code,
    words: &[Value<A>],
) -> Result<Outcome<A>, NoMemory> {
    let text = match words {
        [_, text] => text.as_slice(),
        _ => b"",
    };
    Ok(Err(Leave::Coded(code, Value::from_slice(alloc, text)?)))
}

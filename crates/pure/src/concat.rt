//! `concat w ..` (concat(n)).

ghost use Rattle.std.specs.Prelude.{◌≡◌, [], ◌∷◌, ◌++◌, if◌then◌else◌, IfOk, OnOk};
ghost use Rattle.pure.specs.Concat as meant;
ghost use Rattle.meanings.specs.View.{Answers};

use crate::trim::{WHITE, trim};
use acts::Raise;
use memory::NoMemory;
use std::alloc::Allocator;
use tcltext::Value;

/// Gives the words without white space at their ends, with a blank between them.
pub fn concat<A: Allocator + Copy>(alloc: A, words: &[Value<A>]) -> Result<Value<A>, Raise<A>>
    ensures { Answers (meant.concat words.now) result }
{
    let text = concatenated(alloc, words)?;
    Ok(Value::new(alloc, text)?)
}

/// The words without white space at their ends, with a blank between them (concat(n)).
///
/// # Errors
/// Where memory is refused.
pub fn concatenated<A: Allocator>(alloc: A, words: &[Value<A>]) -> Result<Vec<u8, A>, NoMemory>
    ensures { IfOk result (λ text. text.items ≡ meant.concatenated words.now) }
{
    let mut text = Vec::new(alloc);
    let mut first = true;
    for word in words {
        let word = trim(WHITE, word.as_slice());
        if word.is_empty() {
            continue;
        }
        push_next(&mut text, first, word)?;
        first = false;
    }
    Ok(text)
}

/// Appends a word to a text, with a blank before it where it is not the first.
fn push_next<A: Allocator>(text: &mut Vec<u8, A>, first: bool, word: &[u8]) -> Result<(), NoMemory>
    ensures { OnOk result (text.new.items ≡
        text.old.items ++ ((if first then [] else 32 ∷ []) ++ word.now)) }
{
    if !first {
        text.push(b' ')?;
    }
    text.extend_from_slice(word)?;
    Ok(())
}

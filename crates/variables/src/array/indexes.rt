//! The indexes of an array, and those of them that a pattern takes (array(n), array names).

ghost use Rattle.std.specs.Prelude.{◌≡◌, IfOk, option_copied};
ghost use Rattle.kinds.specs.Readings.{ComesTo, Finds};
ghost use Rattle.variables.specs.Array.Indexes as definition;

use acts::{Fault, NoMemory, Raise};
use patterns::{Pattern, PatternError};
use std::alloc::Allocator;
use tclstate::Scopes;
use tcltext::Value;

/// The indexes of the array that a name means, in order, all of them or those that a pattern takes;
/// none where the name means no array.
///
/// # Errors
/// The script's error where the pattern is too long. `NoMemory` where memory is refused.
pub fn indexes<A: Allocator + Copy>(
    alloc: A,
    scopes: &Scopes<A>,
    name: &[u8],
    index: Option<&[u8]>,
    pattern: Option<&[u8]>,
) -> Result<Vec<Value<A>, A>, Raise<A>>
    ensures { Finds (λ all. all.items) (definition.indexes
        name.now (option_copied index.entry) (option_copied pattern.entry) scopes.now)
        result }
{
    let all = all(alloc, scopes, name, index)?;
    match pattern {
        None => Ok(all),
        Some(pattern) => matched(alloc, pattern, &all),
    }
}

/// All indexes of the array that a name means, in order; none where the name means no array, as
/// that of an element does.
fn all<A: Allocator + Copy>(
    alloc: A,
    scopes: &Scopes<A>,
    name: &[u8],
    index: Option<&[u8]>,
) -> Result<Vec<Value<A>, A>, NoMemory>
    ensures { IfOk result (λ all. all.items ≡ definition.indexes_of scopes.now
        name.now (option_copied index.entry)) }
{
    match index {
        None => scopes.names(alloc, name),
        Some(_) => Ok(Vec::new(alloc)),
    }
}

/// The texts that the pattern of a word takes, in their order.
fn matched<A: Allocator + Copy>(
    alloc: A,
    word: &[u8],
    texts: &[Value<A>],
) -> Result<Vec<Value<A>, A>, Raise<A>>
    ensures { Finds (λ found. found.items) (definition.matched word.now texts.now) result }
{
    match Pattern::plain(alloc, word) {
        Ok(pattern) => Ok(taken(alloc, &pattern, texts)?),
        Err(PatternError::TooLong) => Err(Raise::Fault(Fault::PatternTooLong)),
        Err(PatternError::NoMemory(refusal)) => Err(Raise::NoMemory(refusal)),
    }
}

/// The texts that a pattern takes, in their order.
fn taken<A: Allocator + Copy>(
    alloc: A,
    pattern: &Pattern<A>,
    texts: &[Value<A>],
) -> Result<Vec<Value<A>, A>, NoMemory>
    ensures { IfOk result (λ found.
        ComesTo (definition.taken pattern.now.items texts.now) found.items) }
{
    let mut found = Vec::new(alloc);
    for text in texts {
        if pattern.whole(text.as_slice()) {
            found.push(text.share()?)?;
        }
    }
    Ok(found)
}

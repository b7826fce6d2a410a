//! Two texts as one.

ghost use Rattle.std.specs.Prelude.{◌≡◌, ◌++◌, IfOk};

use memory::NoMemory;
use std::alloc::Allocator;
use tcltext::Value;

/// The text with another after it (Tcl(n), rule 11). A short one takes no memory, and a long one
/// grows in place where nothing else shares it.
///
/// # Errors
/// `NoMemory` where memory is refused.
pub(crate) fn joined<A: Allocator + Copy>(
    alloc: A,
    first: Value<A>,
    second: &[u8],
) -> Result<Value<A>, NoMemory>
    ensures { IfOk result (λ joined. joined ≡ first ++ second.now) }
{
    match Value::joined_in_place(first.as_slice(), second) {
        Some(joined) => Ok(joined),
        None => first.append(alloc, second),
    }
}

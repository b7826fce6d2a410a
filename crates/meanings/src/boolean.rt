//! The text of a truth value.

ghost use Rattle.std.specs.Prelude.{◌≡◌, IfOk};
ghost use Rattle.meanings.specs.Meaning as meant;

use memory::NoMemory;
use std::alloc::Allocator;
use tcltext::Value;

/// The text of a truth value: `1` or `0` (expr(n)).
///
/// # Errors
/// Where memory is refused.
pub fn truth<A: Allocator + Copy>(alloc: A, holds: bool) -> Result<Value<A>, NoMemory>
    ensures { IfOk result (λ text. text ≡ meant.truth holds) }
{
    let text: &[u8] = if holds { b"1" } else { b"0" };
    Value::from_slice(alloc, text)
}

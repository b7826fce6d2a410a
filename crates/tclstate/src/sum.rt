//! A number added to a text that is one.
ghost use Rattle.std.specs.Prelude.{◌≡◌, ◌<◌, ℕ, List, IfSome, IfNone, length};
ghost use Rattle.tclstate.specs.Sum.{IsSum};

use std::alloc::Allocator;
use tcltext::Value;

/// Adds a number to the one that a text is, and gives the sum, which stands there then (incr(n)).
/// `None` where the text is no number, where 64 bits do not hold the sum, or where it does not lie
/// in place (it has more than 14 bytes): nothing has changed then. Takes no memory.
pub fn add_to<A: Allocator>(text: &mut Value<A>, by: i64) -> Option<Value<A>>
    ensures added { IfSome result (λ sum. IsSum by text.old sum) }
    ensures written { IfSome result (λ sum. text.new ≡ sum) }
    ensures unchanged { IfNone result (text.new ≡ text.old) }
    ensures missed { IfNone result
        ((sum : List ℕ) → IsSum by text.old sum → 14 < length sum) }
{
    let number = text.number()?;
    let sum = number.checked_add(by)?;
    let value = Value::int_in_place(sum)?;
    let kept = match value.share() {
        Ok(kept) => kept,
        // (a text that lies in place is shared without memory)
        Err(_) => Value::int_in_place(sum)?,
    };
    *text = kept;
    Some(value)
}

//! `string equal` and `string compare` (string(n)).

ghost use Rattle.std.specs.Prelude.{◌≡◌};
ghost use Rattle.pure.specs.Strings.Compare as meant;
ghost use Rattle.meanings.specs.View.{Answers};

use crate::words::wrong_args;
use acts::Raise;
use meanings::truth;
use std::alloc::Allocator;
use std::cmp::Ordering;
use tcltext::Value;

/// Whether two strings have the same bytes.
pub fn equal<A: Allocator + Copy>(alloc: A, words: &[Value<A>]) -> Result<Value<A>, Raise<A>>
    ensures { Answers (meant.equal words.now) result }
{
    match words {
        [one, other] => Ok(truth(alloc, one.as_slice() == other.as_slice())?),
        _ => wrong_args(alloc, b"string"),
    }
}

/// How two strings are ordered: -1, 0 or 1.
pub fn compare<A: Allocator + Copy>(alloc: A, words: &[Value<A>]) -> Result<Value<A>, Raise<A>>
    ensures { Answers (meant.compare words.now) result }
{
    match words {
        [one, other] => {
            let order = one.as_slice().cmp(&other.as_slice());
            Ok(Value::from_slice(alloc, sign_of(order))?)
        }
        _ => wrong_args(alloc, b"string"),
    }
}

/// The text of an order.
fn sign_of(order: Ordering) -> &'static [u8]
    ensures { result.now ≡ meant.sign_of order }
{
    match order {
        Ordering::Less => b"-1",
        Ordering::Equal => b"0",
        Ordering::Greater => b"1",
    }
}

//! Writing a whole number in decimal.

ghost use Rattle.std.specs.Prelude.{◌≡◌, IfOk, decimal};
ghost use Rattle.std.specs.Fmt.{signed_decimal};

use itoa::Buffer;
use memory::NoMemory;
use std::alloc::Allocator;

/// The text of a whole number: a minus where it is negative, and decimal digits (expr(n)).
pub fn print_int<A: Allocator>(alloc: A, value: i64) -> Result<Vec<u8, A>, NoMemory>
    ensures { IfOk result (λ t. t.items ≡ signed_decimal value) }
{
    let mut buffer = Buffer::new();
    Ok(Vec::from_slice(alloc, buffer.format(value).as_bytes())?)
}

/// The text of a whole number that is not negative: decimal digits (expr(n)).
pub fn print_nat<A: Allocator>(alloc: A, n: u64) -> Result<Vec<u8, A>, NoMemory>
    ensures { IfOk result (λ t. t.items ≡ decimal n) }
{
    let mut buffer = Buffer::new();
    Ok(Vec::from_slice(alloc, buffer.format(n).as_bytes())?)
}

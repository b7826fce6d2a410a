//! The order of operands.

ghost use Rattle.std.specs.Prelude.{◌≡◌};
ghost use Rattle.std.specs.Str.{bytes_eq};
ghost use Rattle.operators.specs.Order as meant;

use crate::operand::Operand;
use itoa::Buffer;
use std::alloc::Allocator;
use std::cmp::Ordering;

/// How two operands are ordered: as numbers where both are numbers, else byte by byte (expr(n),
/// operators).
pub fn order<A: Allocator>(left: &Operand<A>, right: &Operand<A>) -> Ordering
    ensures { result ≡ meant.order left.now right.now }
{
    if let (Some(x), Some(y)) = (left.number_of(), right.number_of()) {
        return x.cmp(&y);
    }
    let mut buffer = Buffer::new();
    let mut other = Buffer::new();
    left.bytes(&mut buffer).cmp(&right.bytes(&mut other))
}

/// Whether two operands have the same bytes (expr(n), eq).
pub fn same_bytes<A: Allocator>(left: &Operand<A>, right: &Operand<A>) -> bool
    ensures { result ≡ bytes_eq left.now right.now }
{
    let mut buffer = Buffer::new();
    let mut other = Buffer::new();
    left.bytes(&mut buffer) == right.bytes(&mut other)
}

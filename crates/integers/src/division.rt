//! Division that rounds down (expr(n), operators).

ghost use Rattle.std.specs.Prelude.{◌<◌, SomeIff, FitsSigned, unsigned_abs};
ghost use Rattle.std.specs.Int.{w64};
ghost use Rattle.integers.specs.Division as meant;

use crate::signs::signed;

/// The quotient by a divisor that is not 0, rounded down (expr(n), operators); none where 64 bits
/// do not hold it. Below 0 one less than the size is divided, and 1 is added to the quotient's
/// size, since that size is rounded up there.
pub fn quotient(a: i64, b: i64) -> Option<i64>
    requires { 0 < unsigned_abs b }
    ensures { SomeIff result (FitsSigned w64 (meant.quotient a b)) (meant.quotient a b) }
{
    let (size, by) = (a.unsigned_abs(), b.unsigned_abs());
    if size == 0 || (a < 0) == (b < 0) {
        0i64.checked_add_unsigned(size / by)
    } else {
        (-1i64).checked_sub_unsigned((size - 1) / by)
    }
}

/// The remainder of the division by a divisor that is not 0, with the divisor's sign (expr(n),
/// operators); none where 64 bits do not hold it.
pub fn remainder(a: i64, b: i64) -> Option<i64>
    requires { 0 < unsigned_abs b }
    ensures { SomeIff result (FitsSigned w64 (meant.remainder a b)) (meant.remainder a b) }
{
    let (size, by) = (a.unsigned_abs(), b.unsigned_abs());
    let rest = if size == 0 || (a < 0) == (b < 0) {
        size % by
    } else {
        by - 1 - (size - 1) % by
    };
    signed(b < 0, rest)
}

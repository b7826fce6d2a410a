//! Products with powers of two, and quotients by them (expr(n), operators).

ghost use Rattle.std.specs.Prelude.{◌≡◌, ◌^◌, SomeIff, FitsSigned, pos, ◌*ℤ◌};
ghost use Rattle.std.specs.Int.{w64};
ghost use Rattle.integers.specs.Division.{rounded_down};

use crate::signs::signed;

/// A number times a power of two; none where 64 bits do not hold it.
pub fn times_power(a: i64, n: u64) -> Option<i64>
    ensures { SomeIff result (FitsSigned w64 (a *ℤ pos (2 ^ n))) (a *ℤ pos (2 ^ n)) }
{
    if a == 0 {
        return Some(0);
    }
    if n > 63 {
        return None;
    }
    let size = a.unsigned_abs().checked_mul(1u64 << n)?;
    signed(a < 0, size)
}

/// A number over a power of two, rounded down.
pub fn over_power(a: i64, n: u64) -> i64
    ensures { result ≡ rounded_down a (2 ^ n) }
{
    a >> n.min(63)
}

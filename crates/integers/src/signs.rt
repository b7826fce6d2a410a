//! Numbers by their sizes and signs.

ghost use Rattle.std.specs.Prelude.{SomeIff, FitsSigned};
ghost use Rattle.std.specs.Int.{w64};
ghost use Rattle.tcltext.specs.Numbers.{with_sign};

/// The number of a size and a sign; none where 64 bits do not hold it.
pub(crate) fn signed(negative: bool, size: u64) -> Option<i64>
    ensures { SomeIff result (FitsSigned w64 (with_sign negative size)) (with_sign negative size) }
{
    if negative {
        0i64.checked_sub_unsigned(size)
    } else {
        0i64.checked_add_unsigned(size)
    }
}

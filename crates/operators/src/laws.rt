//! The law that a number cannot be distinguished from its decimal text.

ghost use Rattle.std.specs.Prelude.{◌≡◌, Some, ℤ, FitsSigned};
ghost use Rattle.std.specs.Fmt.{signed_decimal};
ghost use Rattle.std.specs.Int.{w64};
ghost use Rattle.operators.specs.Number.{number_of};

/// The decimal text of a number within 64 bits is read as that number, so that a number cannot be
/// distinguished from its text (expr(n), operands).
pub fn numbers_are_their_texts()
    ensures { (n : ℤ) → FitsSigned w64 n → number_of (signed_decimal n) ≡ Some n }
{}

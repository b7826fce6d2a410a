//! Laws of the definitions: how quotients are rounded, which sign remainders have, which bits are
//! set.

ghost use Rattle.std.specs.Prelude.{◌≡◌, ◌≢◌, ℕ, ◌<◌, suc, ◌&&◌, ◌||◌, not, ℤ, pos, negsuc, neg_ℤ, ◌+ℤ◌, ◌*ℤ◌, ◌≤ℤ◌, ◌<ℤ◌, FitsSigned};
ghost use Rattle.std.specs.Int.{w64};
ghost use Rattle.integers.specs.Bits.{bit, bits_and, bits_or, bits_xor, complement, differ};
ghost use Rattle.integers.specs.Division.{quotient, remainder};

/// For a divisor above 0 the quotient is the greatest number that, times the divisor, is not above
/// the dividend; it stays the same when both signs are changed (expr(n), operators).
pub fn quotient_rounds_down()
    ensures below { (a : ℤ) (b : ℕ) → 0 < b → (quotient a (pos b) *ℤ pos b) ≤ℤ a }
    ensures greatest { (a q : ℤ) (b : ℕ) → 0 < b → (q *ℤ pos b) ≤ℤ a → q ≤ℤ quotient a (pos b) }
    ensures turned { (a b : ℤ) → b ≢ pos 0 → quotient (neg_ℤ a) (neg_ℤ b) ≡ quotient a b }
{}

/// The remainder is what the divisor times the quotient leaves of the dividend, lies between 0 and
/// the divisor, and can be 0 but not the divisor (expr(n), operators).
pub fn remainder_has_the_divisors_sign()
    ensures whole { (a b : ℤ) → b *ℤ quotient a b +ℤ remainder a b ≡ a }
    ensures above { (a : ℤ) (b : ℕ) → 0 < b →
        (pos 0 ≤ℤ remainder a (pos b)) × (remainder a (pos b) <ℤ pos b) }
    ensures below { (a : ℤ) (b : ℕ) →
        (remainder a (negsuc b) ≤ℤ pos 0) × (negsuc b <ℤ remainder a (negsuc b)) }
{}

/// Of two numbers within 64 bits `&`, `|` and `^` set the bits that are set in both, in one or
/// both, in exactly one; `~` inverts each bit (expr(n), operators).
pub fn bits_are_those()
    ensures and { (a b : ℤ) (i : ℕ) → FitsSigned w64 a → FitsSigned w64 b → i < 64 →
        bit (bits_and a b) i ≡ (bit a i && bit b i) }
    ensures or { (a b : ℤ) (i : ℕ) → FitsSigned w64 a → FitsSigned w64 b → i < 64 →
        bit (bits_or a b) i ≡ (bit a i || bit b i) }
    ensures xor { (a b : ℤ) (i : ℕ) → FitsSigned w64 a → FitsSigned w64 b → i < 64 →
        bit (bits_xor a b) i ≡ differ (bit a i) (bit b i) }
    ensures complement { (a : ℤ) (i : ℕ) → bit (complement a) i ≡ not (bit a i) }
{}

//! Operators on operands that are known to be numbers, where the result is a number as well: they
//! take no memory and make no text.

ghost use Rattle.std.specs.Prelude.{◌≡◌, ◌<◌, List, ℕ, ℤ, Ok, Some, IfSome, SomeIff, FitsSigned, unsigned_abs};
ghost use Rattle.std.specs.Int.{w64};
ghost use Rattle.meanings.specs.Meaning as meant;
ghost use Rattle.operators.specs.Binary.{binary};
ghost use Rattle.operators.specs.Number as numbers;
ghost use Rattle.operators.specs.Number.{number_of};
ghost use Rattle.operators.specs.Numeric.{GivesNumber, MeansNumber};
ghost use Rattle.operators.specs.Truth.{truth_of};
ghost use Rattle.operators.specs.Unary.{unary};

use integers::division::{quotient, remainder};
use tclparse::{Binary, Unary};

/// A number that 64 bits hold, as a result.
#[tactic(auto, using(crate::proofs::Results::told_is, crate::proofs::Results::told_gives))]
fn held(number: Option<i64>) -> Option<i64>
    ensures means { (n : ℤ) → SomeIff number (FitsSigned w64 n) n →
        IfSome result (MeansNumber (numbers.told n)) }
    ensures gives { (n : ℤ) → SomeIff number (FitsSigned w64 n) n →
        IfSome result (GivesNumber (numbers.told n)) }
{
    number
}

/// A truth value as a result: 1 or 0 (expr(n), operators).
pub fn told(holds: bool) -> Option<i64>
    ensures means { IfSome result (MeansNumber (meant.Gives (meant.truth holds))) }
    ensures gives { IfSome result (GivesNumber (meant.Gives (meant.truth holds))) }
{
    if holds { Some(1) } else { Some(0) }
}

/// Whether a text whose number is this one is true (expr(n), operands).
pub fn holds(number: i64) -> bool
    ensures { (a : List ℕ) → number_of a ≡ Some number → truth_of a ≡ Ok result }
{
    number != 0
}

/// The number that an operator gives for the number that its operand is (expr(n), operators).
/// `None` says nothing: the result may be an error.
pub fn of_one(operator: Unary, operand: i64) -> Option<i64>
    ensures means { (a : List ℕ) → number_of a ≡ Some operand →
        IfSome result (MeansNumber (unary operator a)) }
    ensures gives { (a : List ℕ) → number_of a ≡ Some operand →
        IfSome result (GivesNumber (unary operator a)) }
{
    match operator {
        Unary::Negate => held(operand.checked_neg()),
        Unary::Plus => held(Some(operand)),
        Unary::Complement => held(Some(!operand)),
        Unary::Not => told(!holds(operand)),
    }
}

/// The number that an operator gives for the numbers that its operands are (expr(n), operators).
/// `None` says nothing: the result may be an error, or depend on how the numbers are spelled.
pub fn of_both(operator: Binary, left: i64, right: i64) -> Option<i64>
    ensures means { (a b : List ℕ) → number_of a ≡ Some left → number_of b ≡ Some right →
        IfSome result (MeansNumber (binary operator a b)) }
    ensures gives { (a b : List ℕ) → number_of a ≡ Some left → number_of b ≡ Some right →
        IfSome result (GivesNumber (binary operator a b)) }
{
    match operator {
        Binary::Multiply => held(left.checked_mul(right)),
        Binary::Divide if right != 0 => held(quotient(left, right)),
        Binary::Remainder if right != 0 => held(remainder(left, right)),
        Binary::Add => held(left.checked_add(right)),
        Binary::Subtract => held(left.checked_sub(right)),
        Binary::Less => told(left < right),
        Binary::Greater => told(left > right),
        Binary::LessEqual => told(left <= right),
        Binary::GreaterEqual => told(left >= right),
        Binary::Equal => told(left == right),
        Binary::NotEqual => told(left != right),
        Binary::Divide
        | Binary::Remainder
        | Binary::ShiftLeft
        | Binary::ShiftRight
        | Binary::And
        | Binary::Xor
        | Binary::Or
        | Binary::TextEqual
        | Binary::TextNotEqual
        | Binary::In
        | Binary::NotIn => None,
    }
}

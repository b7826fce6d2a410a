//! Laws of the definitions: at a place words have exactly one outcome.
ghost use Rattle.std.specs.Prelude.{◌≡◌, ℕ, List};
ghost use Rattle.readings.specs.Reads.{Place, Outcome, IsRead};

/// At a place words have exactly one outcome: branches or an error.
pub fn one_reading()
    ensures some { (at : Place) (words : List (List ℕ)) →
        (out : Outcome) × IsRead at words out }
    ensures alone { (at : Place) (words : List (List ℕ)) (a b : Outcome) →
        IsRead at words a → IsRead at words b → a ≡ b }
{}

//! Laws of the grammar, each the contract of a function that does nothing.

ghost use Rattle.std.specs.Prelude.{◌≡◌, ℕ, List, Result, Ok};
ghost use Rattle.tclparse.specs.Formula.{Formula};
ghost use Rattle.tclparse.specs.FormulaFault.{FormulaFault};
ghost use Rattle.tclparse.specs.FormulaGrammar.{IsFormula};
ghost use Rattle.formulas.specs.Spellable.{IsSpellable};

/// Each text is a formula or has a fault.
#[tactic(auto, using(crate::proofs::Exists::each_formula))]
pub fn each_text_has_a_formula()
    ensures { (text : List ℕ) → (answer : Result Formula FormulaFault) × IsFormula answer text }
{}

/// No text is two formulas, has two faults, or is a formula and has a fault.
#[tactic(auto, using(crate::proofs::Unique::one_formula))]
pub fn no_text_has_two_formulas()
    ensures { (text : List ℕ) (one other : Result Formula FormulaFault)
        → IsFormula one text → IsFormula other text → one ≡ other }
{}

/// Each formula that can be spelled is the formula of a text: that whose tokens have blanks between
/// them, whose texts stand in quotes, and whose parentheses are those that the levels of operators
/// require. No other formula is that of a text. Numerals without a sign can be spelled, parts that
/// can stand in quotes, calls of as many arguments as the function takes, and rows of operators of
/// one level, with at most 100 brackets, indexes, parentheses, calls, prefixes and choices open at
/// one place.
#[tactic(auto, using(crate::proofs::FormulaTexts::each_text))]
pub fn each_formula_has_a_text()
    ensures texts { (formula : Formula) → IsSpellable 14 100 formula
        → (text : List ℕ) × IsFormula (Ok formula) text }
    ensures no_others { (formula : Formula) (text : List ℕ) → IsFormula (Ok formula) text
        → IsSpellable 14 100 formula }
{}

//! Laws of the definitions: a brace pairs up with one alone, each text is one list or has one first
//! flaw, what is written reads back, a numeral has one number, and a text is a number where it is a
//! numeral within 64 bits.

ghost use Rattle.std.specs.Prelude.{◌≡◌, ◌⊎◌, ◌↔◌, ℕ, ℤ, List, true};
ghost use Rattle.tcltext.specs.Flaw.{Flaw};
ghost use Rattle.tcltext.specs.Balanced.{IsPaired};
ghost use Rattle.tcltext.specs.Elements.{IsList, HasFlaw};
ghost use Rattle.tcltext.specs.Canonical.{canonical};
ghost use Rattle.tcltext.specs.Spellings.{AreSpellings};
ghost use Rattle.tcltext.specs.Numbers.{is_number};
ghost use Rattle.tcltext.specs.Numeral.{IsNumeral, IsInRange};

/// At most one brace in a text pairs up with the open brace before the text.
pub fn one_closing_brace()
    ensures { (text d y e z : List ℕ) →
        IsPaired text d y → IsPaired text e z → (d ≡ e) × (y ≡ z) }
{}

/// No text is two lists, or has two first flaws, or is a list and has a flaw.
pub fn one_reading()
    ensures list { (x : List ℕ) (v u : List (List ℕ)) → IsList v x → IsList u x → v ≡ u }
    ensures flaw { (x : List ℕ) (f g : Flaw) → HasFlaw f x → HasFlaw g x → f ≡ g }
    ensures apart { (x : List ℕ) (v : List (List ℕ)) (f : Flaw) → IsList v x → HasFlaw f x → ⊥ }
{}

/// Each text is a list or has a flaw.
pub fn list_or_flaw()
    ensures { (x : List ℕ) → ((v : List (List ℕ)) × IsList v x) ⊎ ((f : Flaw) × HasFlaw f x) }
{}

/// What is written for a list reads back as that list, and as nothing else.
pub fn reads_back()
    ensures list { (v : List (List ℕ)) → IsList v (canonical v) }
    ensures alone { (v u : List (List ℕ)) → IsList u (canonical v) → u ≡ v }
    ensures sound { (v : List (List ℕ)) (f : Flaw) → HasFlaw f (canonical v) → ⊥ }
{}

/// A text is a list exactly where it consists of spellings of the elements with white space before,
/// between and after them.
pub fn list_is_spellings()
    ensures { (x : List ℕ) (v : List (List ℕ)) → IsList v x ↔ AreSpellings v x }
{}

/// A text is a numeral of one number alone.
pub fn one_value()
    ensures { (x : List ℕ) (n m : ℤ) → IsNumeral n x → IsNumeral m x → n ≡ m }
{}

/// A text is a number exactly where it is a numeral of a number within 64 bits.
pub fn number_is_numeral()
    ensures { (x : List ℕ) →
        (is_number x ≡ true) ↔ ((n : ℤ) × IsNumeral n x × IsInRange n) }
{}

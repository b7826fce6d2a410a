//! The law of the definitions: a function of texts has only one answer.

ghost use Rattle.std.specs.Prelude.{◌≡◌};
ghost use Rattle.meanings.specs.Meaning.{Answer, Meaning, Comes};

/// A meaning yields at most one answer.
pub fn one_answer()
    ensures { (meaning : Meaning) (one other : Answer) →
        Comes meaning one → Comes meaning other → one ≡ other }
{}

//! What the run of a code does after an instruction.

ghost use Rattle.std.specs.Prelude.{◌≡◌};

/// What the run of a code does after an instruction.
#[derive(Clone, Copy, Debug, PartialEq, Eq)]
pub enum Progress {
    /// It goes on with the instruction at its place.
    GoesOn,
    /// A command begins by its words, which lie on top, or, where `Run::go_on` answers this, in
    /// `words`; its value is to be put on top.
    Begins,
    /// Branches are given by the name of a command and the words of an argument in braces, which
    /// lie in the same way; the value of that command is to be put on top.
    Says,
    /// The script of a text, which lies in the same way as the only word, runs one level deeper;
    /// its value is to be put on top.
    Runs,
    /// A text, which lies in the same way as the only word, is evaluated as a formula; its value is
    /// to be put on top.
    Evaluates,
    /// The code is over, with the outcome that lies in the spot.
    Over,
    /// An operand is missing.
    Stuck,
}

impl Progress {
    ghost use Rattle.steps.specs.View.{is_call as is_begun};

    /// Whether something begins by words.
    pub(crate) fn is_call(self) -> bool
        ensures { result ≡ is_begun self }
    {
        match self {
            Progress::Begins | Progress::Says | Progress::Runs | Progress::Evaluates => true,
            Progress::GoesOn | Progress::Over | Progress::Stuck => false,
        }
    }
}

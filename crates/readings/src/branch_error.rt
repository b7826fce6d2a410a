//! Why the words of an `expect` give no branches.
use acts::{Id, NoMemory};
use patterns::PatternError;

/// Why the words of an `expect` give no branches (expect(1), expect).
#[derive(Clone, Copy, Debug, PartialEq, Eq)]
pub enum BranchError<'a> {
    /// This word after `-i` is no list of ids, or an empty one.
    NotIds(&'a [u8]),
    /// This id after `-i` is not open.
    NotOpen(Id),
    /// No open id is in force where one is needed.
    NoneInForce,
    /// A flag has no word after it, or no branch follows it.
    NoPattern,
    /// `-re`, which this project leaves out.
    RegexNotHere,
    /// This word is no flag.
    BadFlag(&'a [u8]),
    /// A pattern is too long.
    TooLong,
    /// Memory was refused.
    NoMemory(NoMemory),
}

impl<'a> From<NoMemory> for BranchError<'a> {
    ghost use Rattle.std.specs.Prelude.{◌≡◌};
    ghost use Rattle.readings.specs.declared.branch_error.BranchError.TheVariants as error;

    ghost from_gives = { λ refusal made. made ≡ error.NoMemory refusal };

    fn from(refusal: NoMemory) -> BranchError<'a> {
        BranchError::NoMemory(refusal)
    }
}

impl<'a> From<PatternError> for BranchError<'a> {
    ghost use Rattle.std.specs.Prelude.{◌≡◌};
    ghost use Rattle.readings.specs.Misreads.{of_pattern};

    ghost from_gives = { λ fault made. made ≡ of_pattern fault };

    fn from(fault: PatternError) -> BranchError<'a> {
        match fault {
            PatternError::TooLong => BranchError::TooLong,
            PatternError::NoMemory(refusal) => BranchError::NoMemory(refusal),
        }
    }
}

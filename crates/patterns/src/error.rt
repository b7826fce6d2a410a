//! Why a text is no pattern.
use memory::NoMemory;
use thiserror::Error;

/// Why a text was not made a pattern.
#[derive(Clone, Copy, Debug, PartialEq, Eq, Error)]
pub enum PatternError {
    /// Memory was refused, as this refusal says.
    #[error("no memory")]
    NoMemory(NoMemory),
    /// The text has more than 1,000,000 bytes.
    #[error("pattern too long")]
    TooLong,
}

impl From<NoMemory> for PatternError {
    ghost use Rattle.std.specs.Prelude.{◌≡◌};
    ghost use Rattle.patterns.specs.declared.error.PatternError.TheVariants.{NoMemory};

    ghost from_gives = { λ refused error. error ≡ NoMemory refused };

    fn from(refused: NoMemory) -> PatternError {
        PatternError::NoMemory(refused)
    }
}

//! Why an id is not opened.
use memory::NoMemory;
use thiserror::Error;

/// Why an id was not opened.
#[derive(Clone, Copy, Debug, PartialEq, Eq, Error)]
pub enum OpenError {
    /// [`MOST_OPEN`](crate::MOST_OPEN) ids are open, or no number is left.
    #[error("too many spawn ids")]
    TooMany,
    /// Memory was refused.
    #[error("no memory")]
    NoMemory(NoMemory),
}

impl From<NoMemory> for OpenError {
    ghost use Rattle.std.specs.Prelude.{◌≡◌};
    ghost use Rattle.choices.specs.declared.error.OpenError.TheVariants as error;

    ghost from_gives = { λ refusal made. made ≡ error.NoMemory refusal };

    fn from(refusal: NoMemory) -> OpenError {
        OpenError::NoMemory(refusal)
    }
}

//! Why a match buffer is not made, or keeps its size.
use memory::NoMemory;
use std::alloc::AllocError;
use thiserror::Error;

/// Why a match buffer was not made, or kept its size.
#[derive(Clone, Copy, Debug, PartialEq, Eq, Error)]
pub enum MatchBufError {
    /// The size is not from 1 to [`MAX_SIZE`](crate::MAX_SIZE) bytes.
    #[error("match_max must be 1 to 1000000")]
    Size,
    /// Memory was refused.
    #[error("no memory")]
    NoMemory(NoMemory),
}

impl From<AllocError> for MatchBufError {
    ghost use Rattle.std.specs.Prelude.{◌≡◌};
    ghost use Rattle.memory.specs.declared.NoMemory.{NoMemory};
    ghost use Rattle.matchbuf.specs.declared.error.MatchBufError.TheVariants as error;

    ghost from_gives = { λ _ made. (refusal : NoMemory) × (made ≡ error.NoMemory refusal) };

    fn from(refusal: AllocError) -> MatchBufError {
        MatchBufError::NoMemory(NoMemory::from(refusal))
    }
}

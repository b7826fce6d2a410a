//! Why a reader made no formula.

use crate::fault::Fault;
use memory::NoMemory;
use std::alloc::AllocFailed;

/// Why no formula was made.
#[derive(Clone, Copy, Debug, Drop)]
pub enum ReadError {
    /// Memory was refused.
    Memory(NoMemory),
    /// The text has this fault.
    Fault(Fault),
}

impl From<NoMemory> for ReadError {
    ghost use Rattle.formulas.specs.Error.{IsMemory};

    ghost from_gives = { λ _ error. IsMemory error };

    fn from(refusal: NoMemory) -> Self {
        ReadError::Memory(refusal)
    }
}

impl<T: Drop> From<AllocFailed<T>> for ReadError {
    ghost use Rattle.formulas.specs.Error.{IsMemory};

    ghost from_gives = { λ _ error. IsMemory error };

    fn from(refusal: AllocFailed<T>) -> Self {
        ReadError::Memory(NoMemory::from(refusal))
    }
}

impl From<tclparse::ReadError> for ReadError {
    ghost use Rattle.formulas.specs.Error.{IsSame};

    ghost from_gives = { λ words error. IsSame words error };

    fn from(error: tclparse::ReadError) -> Self {
        match error {
            tclparse::ReadError::Memory(refusal) => ReadError::Memory(refusal),
            tclparse::ReadError::Fault(fault) => ReadError::Fault(Fault::Words(fault)),
        }
    }
}

impl From<Fault> for ReadError {
    ghost use Rattle.std.specs.Prelude.{◌≡◌};
    ghost use Rattle.formulas.specs.declared.error.ReadError.TheVariants.{Fault};

    ghost from_gives = { λ fault error. error ≡ Fault fault };

    fn from(fault: Fault) -> Self {
        ReadError::Fault(fault)
    }
}

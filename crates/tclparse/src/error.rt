//! Why a reader gives no piece of the tree.

use crate::fault::Fault;
use memory::NoMemory;
use std::alloc::AllocFailed;

/// Why a reader gives no piece of the tree: memory was refused, or the text has a fault.
#[derive(Clone, Copy, Debug, Drop)]
pub enum ReadError {
    /// Memory was refused.
    Memory(NoMemory),
    /// The text has this fault.
    Fault(Fault),
}

impl From<NoMemory> for ReadError {
    ghost use Rattle.tclparse.specs.Error.{IsMemory};

    ghost from_gives = { λ _ error. IsMemory error };

    fn from(refusal: NoMemory) -> Self {
        ReadError::Memory(refusal)
    }
}

impl<T: Drop> From<AllocFailed<T>> for ReadError {
    ghost use Rattle.tclparse.specs.Error.{IsMemory};

    ghost from_gives = { λ _ error. IsMemory error };

    fn from(refusal: AllocFailed<T>) -> Self {
        ReadError::Memory(NoMemory::from(refusal))
    }
}

impl From<Fault> for ReadError {
    ghost use Rattle.std.specs.Prelude.{◌≡◌};
    ghost use Rattle.tclparse.specs.declared.error.ReadError.TheVariants.{Fault};

    ghost from_gives = { λ fault error. error ≡ Fault fault };

    fn from(fault: Fault) -> Self {
        ReadError::Fault(fault)
    }
}

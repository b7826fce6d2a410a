//! Why a text was not read as a list.

use memory::NoMemory;
use std::alloc::{AllocError, AllocFailed};
use thiserror::Error;

/// Why no list was read (Tcl_SplitList(3)).
#[derive(Clone, Copy, Debug, PartialEq, Eq, Error)]
pub enum ListFault {
    /// An opening brace has no brace that pairs up with it.
    #[error("unmatched open brace in list")]
    OpenBrace,
    /// A quote is open at the text's end.
    #[error("unmatched open quote in list")]
    OpenQuote,
    /// A closing brace is followed by a byte other than white space.
    #[error("list element in braces followed by other characters")]
    AfterBrace,
    /// A closing quote is followed by a byte other than white space.
    #[error("list element in quotes followed by other characters")]
    AfterQuote,
    /// Memory was refused, as this refusal says.
    #[error("no memory")]
    NoMemory(NoMemory),
    /// An element has the escape `\u` or `\U`.
    #[error("\\u and \\U are not in this profile")]
    EscapeNotHere,
}

impl From<NoMemory> for ListFault {
    ghost use Rattle.std.specs.Prelude.{◌≡◌};
    ghost use Rattle.tcltext.specs.declared.list.fault.ListFault.TheVariants.{NoMemory};

    ghost from_gives = { λ refused fault. fault ≡ NoMemory refused };

    fn from(refused: NoMemory) -> ListFault {
        ListFault::NoMemory(refused)
    }
}

impl From<AllocError> for ListFault {
    ghost use Rattle.tcltext.specs.Seen.{WantsMemory};

    ghost from_gives = { λ _ fault. WantsMemory fault };

    fn from(refused: AllocError) -> ListFault {
        ListFault::NoMemory(refused.into())
    }
}

impl<T: Drop> From<AllocFailed<T>> for ListFault {
    ghost use Rattle.tcltext.specs.Seen.{WantsMemory};

    ghost from_gives = { λ _ fault. WantsMemory fault };

    fn from(refused: AllocFailed<T>) -> ListFault {
        ListFault::NoMemory(refused.into())
    }
}

//! Why a variable is not read, written or removed.

use memory::NoMemory;
use std::alloc::{AllocError, AllocFailed};
use std::error::Error;
use std::fmt;

/// Why a variable was not read, written or removed. The scopes are then as they were.
#[derive(Clone, Copy, Debug, PartialEq, Eq)]
pub enum ScopeError {
    /// The name stands for nothing.
    NoVariable,
    /// The name stands for an array, and no index was given.
    IsArray,
    /// The name stands for a text, and an index was given.
    NotArray,
    /// The array has no element at the index.
    NoElement,
    /// Memory was refused.
    NoMemory(NoMemory),
}

impl fmt::Display for ScopeError {
    fn fmt<W: fmt::Write>(&self, f: &mut fmt::Formatter<W>) -> fmt::Result {
        match self {
            ScopeError::NoVariable => f.write_str("no such variable"),
            ScopeError::IsArray => f.write_str("variable is an array"),
            ScopeError::NotArray => f.write_str("variable is not an array"),
            ScopeError::NoElement => f.write_str("no such element"),
            ScopeError::NoMemory(refusal) => refusal.fmt(f),
        }
    }
}

impl Error for ScopeError {}

impl From<NoMemory> for ScopeError {
    ghost use Rattle.std.specs.Prelude.{◌≡◌};
    ghost use Rattle.tclstate.specs.declared.error.ScopeError.TheVariants.{NoMemory};

    ghost from_gives = { λ refusal error. error ≡ NoMemory refusal };

    fn from(refusal: NoMemory) -> ScopeError {
        ScopeError::NoMemory(refusal)
    }
}

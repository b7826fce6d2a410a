//! Which command it was.

/// A command of the run, by a number that the caller chooses, and gets back as it was given.
#[derive(Clone, Copy, Debug, PartialEq, Eq)]
pub struct Cause(pub u64);

//! Whole formulas.

ghost use Rattle.formulas.specs.Reads.{ReadsFormula};

use crate::error::ReadError;
use crate::fault::Fault;
use crate::read::read_whole;
use crate::tree::Formula;
use std::alloc::Allocator;
use tclparse::MAX_OPEN;

impl<A: Allocator + Copy> Formula<A> {
    /// Reads a whole text (expr(n)). Each text is one formula or has one fault (`laws`).
    ///
    /// The time grows with the length of the text, the stack with how much is open at one place.
    ///
    /// # Errors
    /// The text's first fault from the left, or want of memory; nothing that was built is kept.
    pub fn read(alloc: A, text: &[u8]) -> Result<Formula<A>, ReadError>
        ensures { ReadsFormula text.now result }
    {
        let (formula, end) = read_whole(alloc, MAX_OPEN, text)?;
        if end.is_empty() {
            Ok(formula)
        } else {
            Err(ReadError::Fault(Fault::Syntax))
        }
    }
}

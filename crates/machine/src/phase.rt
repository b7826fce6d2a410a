//! Where a session stands.

use crate::closing::Closing;
use crate::end::End;
use crate::waits::Waits;
use acts::{Act, NoMemory};
use state::Outcome;
use std::alloc::Allocator;

/// Where a session stands.
#[derive(Drop)]
pub enum Phase<A: Allocator> {
    /// A part has ended with this outcome, which the top frame takes.
    Has(Outcome<A>),
    /// A command's act waits for its answer.
    Asks(Act<A>, Waits<A>),
    /// An act that closes the run waits for its answer.
    Closes(Act<A>, Closing<A>),
    /// The run is over.
    Over(End<A>),
    /// Memory was refused.
    Refused(NoMemory),
}

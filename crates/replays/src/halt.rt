//! Why a recorded run that is read as it is replayed answers no more acts.

ghost use Rattle.std.specs.Prelude.{◌≡◌};
ghost use Rattle.replays.specs.Reel.{halt_of};

use acts::NoMemory;
use records::{ReadFault, RecordFault};

/// Why a recorded run answers no more acts, though entries are left.
#[derive(Clone, Copy, Debug, PartialEq, Eq)]
pub enum Halt {
    /// The act of this number, counted from 1, is not the wait that its entry tells.
    Differs(u64),
    /// The next entry can't be read: what is read begins no entry, or there is nothing more, or
    /// the reading was given up.
    Unread,
    /// Memory was refused where the next entry was read.
    NoMemory(NoMemory),
}

impl Halt {
    /// Why an entry was not read.
    pub(crate) fn of_fault(fault: ReadFault) -> Halt
        ensures { result ≡ halt_of fault }
    {
        match fault {
            ReadFault::Unfit(RecordFault::NoMemory(refusal)) => Halt::NoMemory(refusal),
            ReadFault::Unfit(_) | ReadFault::GivenUp => Halt::Unread,
        }
    }
}

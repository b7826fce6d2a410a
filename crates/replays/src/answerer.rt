//! What answers the acts of a run from what was recorded.

ghost use Rattle.acts.specs.Deed.{Deed, Reply, deed_of, reply_of};

use acts::{Act, Answer};
use std::alloc::Allocator;

/// A recorded run, which answers one act after the other.
pub trait Answerer<A: Allocator> {
    /// Whether an act may get this answer and lead from one state to another.
    ghost answers: { Self → Deed → Reply → Self → Type 0 };

    /// The answer to an act.
    fn answer(&mut self, act: &Act<A>) -> Answer<A>
        ensures { answers self.old (deed_of act.now) (reply_of result) self.new };
}

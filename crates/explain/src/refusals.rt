//! Why the world refused an act, in the words of the system.

ghost use Rattle.std.specs.Prelude.{◌≡◌};
ghost use Rattle.worlds.specs.Runs.{Heard, RunsRecorded};

use acts::{Act, Answer, Limits, NoMemory, World};
use records::Sink;
use std::alloc::Allocator;
use teller::Refusal;
use worlds::recorded::{Refuses, run_seen};
use worlds::{End, Lead, Running, State, Watch};

/// A world that is lent, and what it refused last.
#[derive(Drop)]
pub(crate) struct Heeded<'w, W> {
    pub world: &'w mut W,
    /// How many acts were asked for.
    pub acts: u64,
    pub refusal: Option<Refusal>,
}

impl<A: Allocator, W: World<A> + Refuses<A>> World<A> for Heeded<'_, W> {
    // A step of the world, after which the same one is still lent.
    ghost step = { λ before act answer after.
        W.step before.world.now act answer after.world.now
        × (after.world.ghost_name ≡ before.world.ghost_name) };

    fn act(&mut self, act: &Act<A>) -> Answer<A> {
        let answer = self.world.act(act);
        self.acts = self.acts.saturating_add(1);
        if is_refused(&answer) {
            self.refusal = match self.world.refusal() {
                Some(why) => Some(Refusal {
                    act: self.acts,
                    why,
                }),
                None => None,
            };
        }
        answer
    }
}

/// Whether an answer says that an act was refused, or that a write failed.
fn is_refused<A: Allocator>(answer: &Answer<A>) -> bool {
    matches!(answer, Answer::Refused | Answer::Failed(_))
}

/// Runs a script in such a world, which still borrows the same one afterwards, while someone
/// watches.
pub(crate) fn run_heeded<
    A: Allocator + Copy,
    W: World<A> + Refuses<A>,
    S: Sink,
    T: Watch<A, Running<A>, State<A>, Lead<A>>,
>(
    alloc: A,
    script: &[u8],
    args: &[Vec<u8, A>],
    limits: Limits,
    world: &mut Heeded<'_, W>,
    made: &mut Option<S>,
    watch: &mut T,
) -> Result<End<A>, NoMemory>
    ensures same_world { world.new.world.ghost_name ≡ world.old.world.ghost_name }
    ensures runs { RunsRecorded W.step S.adds S.has_failed (Heard T.told watch.old watch.new)
        script.now args.now limits.ticks world.old.world.now made.old world.new.world.now made.new
        result }
{
    run_seen(alloc, script, args, limits, world, made, watch)
}

//! Instructions one after the other, up to the next command or to the end.

ghost use Rattle.std.specs.Prelude.{◌≡◌, ◌≢◌, ◌<◌, ◌≤◌, ◌-◌, ℕ, [], length, IfOk};
ghost use Rattle.state.specs.Budget.{again_of};
ghost use Rattle.state.specs.Prelude.{Status, outcome_of};
ghost use Rattle.steps.specs.Does.{Arrives};
ghost use Rattle.steps.specs.Run.{IsIdle, IsQuiet};
ghost use Rattle.steps.specs.View.{IsCall, did_of, spot_of, with_parts};
ghost use Rattle.steps.specs.declared.progress.Progress.TheVariants as went;

use crate::progress::Progress;
use crate::spot::Spot;
use crate::stepping::step;
use code::Instruction;
use memory::NoMemory;
use std::alloc::Allocator;
use tclstate::{Procs, Scopes};

/// Does instructions one after the other, up to the next command or to the end of the code.
///
/// # Errors
/// `NoMemory` where memory is refused.
#[inline(never)]
pub fn advance<A: Allocator + Copy>(
    alloc: A,
    code: &[Instruction<A>],
    spot: &mut Spot<A>,
    scopes: &mut Scopes<A>,
    procs: &Procs<A>,
    left: &mut u64,
) -> Result<Progress, NoMemory>
    ensures arrives { (s : Status) → IfOk result (λ progress. Arrives code.now (spot_of spot.old)
        (with_parts scopes.old procs.now left.old s)
        (did_of progress spot.new (with_parts scopes.new procs.now left.new s))) }
    ensures stops { IfOk result (λ progress. progress ≢ went.GoesOn) }
    ensures onward { IfOk result (λ progress. IsCall progress → left.new ≡ left.old →
        length code.now - spot.new.place < length code.now - spot.old.place) }
    ensures ticks { left.new ≤ left.old }
    ensures first { (said : ℕ) → IsQuiet said code.now spot.old.place →
        (spot_of spot.old).handlers ≡ [] →
        IfOk result (λ progress. left.new ≡ left.old → IsIdle said code.now progress spot.new) }
    ensures ended { length code.now ≤ spot.old.place →
        IfOk result (λ progress. progress ≡ went.Over →
        again_of (outcome_of spot.new.outcome) ≡ 0) }
{
    'steps: loop {
        let progress = step(alloc, code, spot, scopes, procs, left)?;
        if progress != Progress::GoesOn {
            return Ok(progress);
        }
    }
}

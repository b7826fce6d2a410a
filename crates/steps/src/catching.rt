//! The instructions of `catch` (catch(n)).

ghost use Rattle.std.specs.Prelude.{◌≡◌, IfOk};
ghost use Rattle.state.specs.Prelude.{Status};
ghost use Rattle.steps.specs.Catch.{catching, ending_catch};
ghost use Rattle.steps.specs.View.{did_of, spot_of};

use crate::handler::{Covered, Handler};
use crate::handling::put_code;
use crate::progress::Progress;
use crate::spot::Spot;
use memory::NoMemory;
use std::alloc::Allocator;

/// The script of a `catch` begins, and each outcome but a value leads to this place.
pub fn begin_catch<A: Allocator + Copy>(
    spot: &mut Spot<A>,
    place: usize,
) -> Result<Progress, NoMemory>
    ensures does { (s : Status) → IfOk result (λ progress.
        did_of progress spot.new s ≡ catching place (spot_of spot.old) s) }
    ensures place { spot.new.place ≡ spot.old.place }
{
    spot.handlers.push(Handler {
        covers: Covered::Catch,
        over: place,
        operands: spot.operands.len(),
        marks: spot.marks.len(),
        levels: spot.levels,
    })?;
    Ok(Progress::GoesOn)
}

/// The script of a `catch` is over with the value on top, below which the number of ok is put.
pub fn end_catch<A: Allocator + Copy>(spot: &mut Spot<A>) -> Result<Progress, NoMemory>
    ensures does { (s : Status) → IfOk result (λ progress.
        did_of progress spot.new s ≡ ending_catch (spot_of spot.old) s) }
    ensures place { spot.new.place ≡ spot.old.place }
{
    let Some(value) = spot.operands.pop() else {
        return Ok(Progress::Stuck);
    };
    let Some(_) = spot.handlers.pop() else {
        return Ok(Progress::Stuck);
    };
    put_code(spot, 0, value)?;
    Ok(Progress::GoesOn)
}

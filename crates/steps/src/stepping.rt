//! One instruction.

ghost use Rattle.std.specs.Prelude.{◌≡◌, ◌<◌, ◌≤◌, length, slice_get, option_copied, IfOk, None};
ghost use Rattle.acts.specs.Flaw as flaw;
ghost use Rattle.state.specs.Faults.{flaw_of_fault};
ghost use Rattle.state.specs.Piece.{ListText};
ghost use Rattle.state.specs.Prelude.{Status};
ghost use Rattle.steps.specs.Does.{Does};
ghost use Rattle.steps.specs.Handling.{fails};
ghost use Rattle.steps.specs.Machine.{does as said, entering, indexing, machine, reading, running, spread as spread_of, spreading, unhidden};
ghost use Rattle.steps.specs.Spot.{Reads as reads_text};
ghost use Rattle.steps.specs.View.{IsOpen, did_of, spot_of, with_parts};
ghost use Rattle.tclparse.specs.Seen.{fault_of};
ghost use Rattle.tclstate.specs.Pairs.{found};

use crate::catching::{begin_catch, end_catch};
use crate::direct::{add, append, increment, leave_by_return, set};
use crate::foreach::{assign, begin_foreach, deal, finish, look};
use crate::functions::start;
use crate::handling::{fail_to_reach, failed};
use crate::looping::{begin_step, begin_turn, end_turn, turn};
use crate::operating::{
    apply, choose, give_result, join_both, jump, jump_unless, number, prefix, tell,
};
use crate::progress::Progress;
use crate::spot::Spot;
use crate::storing::keep;
use crate::switch::{begin_switch, compare, match_glob};
use acts::{NoMemory, Raise};
use code::Instruction;
use meanings::elements;
use state::faults::no_script;
use std::alloc::Allocator;
use tclparse::Fault;
use tclstate::{Procs, Scopes};
use tcltext::Value;

/// Puts the value of a variable, or of an element, on top.
#[inline(always)]
fn read<A: Allocator + Copy>(
    alloc: A,
    spot: &mut Spot<A>,
    scopes: &Scopes<A>,
    name: &[u8],
    index: Option<&[u8]>,
) -> Result<Progress, NoMemory>
    ensures does { (s : Status) → s.scopes ≡ scopes.now → IfOk result (λ progress.
        did_of progress spot.new s
        ≡ reading name.now (option_copied index.entry) (spot_of spot.old) s) }
    ensures place { spot.old.place ≤ spot.new.place }
{
    match scopes.get(name, index) {
        Ok(value) => Ok(spot.put_shared(value)?),
        Err(error) => Ok(fail_to_reach(alloc, spot, error, name, index)?),
    }
}

/// Puts the value of the variable of this name on top.
fn read_variable<A: Allocator + Copy>(
    alloc: A,
    spot: &mut Spot<A>,
    scopes: &Scopes<A>,
    name: &Value<A>,
) -> Result<Progress, NoMemory>
    ensures does { (s : Status) → s.scopes ≡ scopes.now → IfOk result (λ progress.
        did_of progress spot.new s ≡ reading name.now None (spot_of spot.old) s) }
    ensures place { spot.old.place ≤ spot.new.place }
{
    Ok(read(alloc, spot, scopes, name.as_slice(), None)?)
}

/// Puts the value of the element at the index on top in its place.
fn read_element<A: Allocator + Copy>(
    alloc: A,
    spot: &mut Spot<A>,
    scopes: &Scopes<A>,
    name: &Value<A>,
) -> Result<Progress, NoMemory>
    ensures does { (s : Status) → s.scopes ≡ scopes.now → IfOk result (λ progress.
        did_of progress spot.new s ≡ indexing name.now (spot_of spot.old) s) }
    ensures place { spot.old.place ≤ spot.new.place }
{
    let Some(index) = spot.operands.pop() else {
        return Ok(Progress::Stuck);
    };
    Ok(read(alloc, spot, scopes, name.as_slice(), Some(index.as_slice()))?)
}

/// A script in brackets is refused, since no level is left.
#[cold]
#[inline(never)]
fn refuse_level<A: Allocator + Copy>(alloc: A, spot: &mut Spot<A>) -> Result<Progress, NoMemory>
    ensures does { (s : Status) → IfOk result (λ progress.
        did_of progress spot.new s ≡ fails flaw.TooManyNested (spot_of spot.old) s) }
    ensures place { spot.old.place ≤ spot.new.place }
{
    Ok(failed(alloc, spot, acts::Fault::TooManyNested)?)
}

/// A script in brackets or in a word begins, where a level is left.
fn enter<A: Allocator + Copy>(alloc: A, spot: &mut Spot<A>) -> Result<Progress, NoMemory>
    ensures does { (s : Status) → IfOk result (λ progress.
        did_of progress spot.new s
        ≡ entering spot.old.levels (spot_of spot.old) s) }
    ensures place { spot.old.place ≤ spot.new.place }
{
    if spot.levels == 0 {
        return Ok(refuse_level(alloc, spot)?);
    }
    spot.levels -= 1;
    Ok(spot.put(Value::empty())?)
}

/// The script of a text runs, where a level is left.
fn run_text<A: Allocator + Copy>(
    alloc: A,
    spot: &mut Spot<A>,
    text: &Value<A>,
) -> Result<Progress, NoMemory>
    ensures does { (s : Status) → IfOk result (λ progress. did_of progress spot.new s
        ≡ running spot.old.levels text.now (spot_of spot.old) s) }
    ensures place { spot.old.place ≤ spot.new.place }
{
    if spot.levels == 0 {
        return Ok(refuse_level(alloc, spot)?);
    }
    Ok(spot.run_text(text)?)
}

/// Puts the elements of a list on top.
fn spread_text<A: Allocator + Copy>(
    alloc: A,
    spot: &mut Spot<A>,
    text: &[u8],
) -> Result<Progress, NoMemory>
    ensures does { (s : Status) → IfOk result (λ progress.
        Does (reads_text (ListText text.now) (spread_of (spot_of spot.old) s))
        (did_of progress spot.new s)) }
    ensures place { spot.old.place ≤ spot.new.place }
{
    match elements(alloc, text) {
        Ok(mut elements) => {
            spot.operands.append(&mut elements)?;
            Ok(Progress::GoesOn)
        }
        Err(Raise::Fault(fault)) => Ok(failed(alloc, spot, fault)?),
        Err(Raise::NoMemory(refusal)) => Err(refusal),
    }
}

/// Puts the elements of the list on top in its place.
fn spread<A: Allocator + Copy>(alloc: A, spot: &mut Spot<A>) -> Result<Progress, NoMemory>
    ensures does { (s : Status) → IfOk result (λ progress.
        Does (spreading (spot_of spot.old) s) (did_of progress spot.new s)) }
    ensures place { spot.old.place ≤ spot.new.place }
{
    let Some(text) = spot.operands.pop() else {
        return Ok(Progress::Stuck);
    };
    Ok(spread_text(alloc, spot, text.as_slice())?)
}

/// The script ends by a fault of its text.
fn end_faulty<A: Allocator + Copy>(
    alloc: A,
    spot: &mut Spot<A>,
    fault: Fault,
) -> Result<Progress, NoMemory>
    ensures does { (s : Status) → IfOk result (λ progress. did_of progress spot.new s
        ≡ fails (flaw_of_fault (fault_of fault)) (spot_of spot.old) s) }
    ensures place { spot.old.place ≤ spot.new.place }
{
    Ok(failed(alloc, spot, no_script(fault))?)
}

/// Where no procedure has this name, the place is next.
fn jump_unhidden<A: Allocator + Copy>(
    spot: &mut Spot<A>,
    procs: &Procs<A>,
    name: &Value<A>,
    place: usize,
) -> Progress
    ensures does { (s : Status) → s.procedures ≡ procs.now →
        did_of result spot.new s
        ≡ unhidden (found s.procedures name.now) place (spot_of spot.old) s }
    ensures place { spot.old.place ≤ spot.new.place }
{
    match procs.get(name.as_slice()) {
        Some(_) => Progress::GoesOn,
        None => jump(spot, place),
    }
}

/// Does what an instruction says, where the next place is at hand.
#[inline(always)]
fn perform<A: Allocator + Copy>(
    alloc: A,
    instruction: &Instruction<A>,
    spot: &mut Spot<A>,
    scopes: &mut Scopes<A>,
    procs: &Procs<A>,
    left: &mut u64,
) -> Result<Progress, NoMemory>
    ensures does { (s : Status) → IfOk result (λ progress. Does
        (said instruction.now (spot_of spot.old) (with_parts scopes.old procs.now left.old s))
        (did_of progress spot.new (with_parts scopes.new procs.now left.new s))) }
    ensures ticks { left.new ≤ left.old }
    ensures place { left.new ≡ left.old → spot.old.place ≤ spot.new.place }
{
    match instruction {
        Instruction::Next(_) => Ok(spot.tick(left)),
        Instruction::Text(text) => Ok(spot.put_shared(text)?),
        Instruction::Variable(name) => Ok(read_variable(alloc, spot, scopes, name)?),
        Instruction::Element(name) => Ok(read_element(alloc, spot, scopes, name)?),
        Instruction::Join => Ok(spot.join(alloc)?),
        Instruction::Enter => Ok(enter(alloc, spot)?),
        Instruction::Body(_) => Ok(enter(alloc, spot)?),
        Instruction::Leave => Ok(spot.leave()),
        Instruction::Run(text, _) => Ok(run_text(alloc, spot, text)?),
        Instruction::Count(n) => Ok(spot.count(*n)?),
        Instruction::Spread => Ok(spread(alloc, spot)?),
        Instruction::Command(n) => Ok(start(alloc, spot, procs, *n)?),
        Instruction::Counted => Ok(spot.begin_counted()),
        Instruction::Say => Ok(spot.say()),
        Instruction::Fault(fault) => Ok(end_faulty(alloc, spot, *fault)?),
        Instruction::Numeral(digits) => Ok(number(alloc, spot, digits)?),
        Instruction::Prefix(operator) => Ok(prefix(alloc, spot, *operator)?),
        Instruction::Binary(operator) => Ok(join_both(alloc, spot, *operator)?),
        Instruction::Call(function, n) => Ok(apply(alloc, spot, *function, *n)?),
        Instruction::AndAlso(place) => Ok(choose(alloc, spot, *place, false)?),
        Instruction::OrElse(place) => Ok(choose(alloc, spot, *place, true)?),
        Instruction::Truth => Ok(tell(alloc, spot)?),
        Instruction::Evaluate(text) => Ok(spot.evaluate_text(text)?),
        Instruction::Result => Ok(give_result(alloc, spot)?),
        Instruction::Unless(place) => Ok(jump_unless(alloc, spot, *place)?),
        Instruction::Jump(place) => Ok(jump(spot, *place)),
        Instruction::Unhidden(name, place) => Ok(jump_unhidden(spot, procs, name, *place)),
        Instruction::Turn(body, end) => Ok(turn(alloc, spot, *body, *end, left)?),
        Instruction::Step => Ok(begin_step(spot)?),
        Instruction::EndTurn => Ok(end_turn(spot)),
        Instruction::Discard => Ok(spot.discard()),
        Instruction::Foreach(names, body, place) => {
            Ok(begin_foreach(alloc, spot, procs, names, body, *place)?)
        }
        Instruction::Deal(place) => Ok(deal(alloc, spot, *place)?),
        Instruction::More(place) => Ok(look(spot, *place)),
        Instruction::Assign(name) => Ok(assign(alloc, spot, scopes, name)?),
        Instruction::Begin(body, end) => Ok(begin_turn(spot, *body, *end, left)?),
        Instruction::Done => Ok(finish(spot)?),
        Instruction::Switch(options, after, place) => {
            Ok(begin_switch(alloc, spot, procs, *options, after, *place)?)
        }
        Instruction::Equals(pattern, taken, other) => Ok(compare(spot, pattern, *taken, *other)),
        Instruction::Matches(pattern, taken, other) => {
            Ok(match_glob(spot, pattern, *taken, *other))
        }
        Instruction::Catch(place) => Ok(begin_catch(spot, *place)?),
        Instruction::EndCatch => Ok(end_catch(spot)?),
        Instruction::Store(name) => Ok(keep(alloc, spot, scopes, name)?),
        Instruction::Set(name) => Ok(set(alloc, spot, scopes, procs, name)?),
        Instruction::Append(name) => Ok(append(alloc, spot, scopes, procs, name)?),
        Instruction::Add(name) => Ok(add(alloc, spot, scopes, procs, name)?),
        Instruction::Increment => Ok(increment(alloc, spot, scopes, procs)?),
        Instruction::Return => Ok(leave_by_return(alloc, spot, procs)?),
        Instruction::Hole => Ok(Progress::Stuck),
    }
}

/// Does what the instruction at the place says; after the last one the code is over.
///
/// # Errors
/// `NoMemory` where memory is refused.
#[inline(always)]
pub fn step<A: Allocator + Copy>(
    alloc: A,
    code: &[Instruction<A>],
    spot: &mut Spot<A>,
    scopes: &mut Scopes<A>,
    procs: &Procs<A>,
    left: &mut u64,
) -> Result<Progress, NoMemory>
    ensures does { (s : Status) → IfOk result (λ progress. Does
        (machine (slice_get code.now spot.old.place) (spot_of spot.old)
        (with_parts scopes.old procs.now left.old s))
        (did_of progress spot.new (with_parts scopes.new procs.now left.new s))) }
    ensures onward { IfOk result (λ progress. IsOpen progress →
        (spot.old.place < length code.now) × (left.new ≤ left.old) ×
        (left.new ≡ left.old → spot.old.place < spot.new.place)) }
    ensures ticks { left.new ≤ left.old }
{
    let Some(instruction) = code.get(spot.place) else {
        return Ok(spot.finish());
    };
    spot.place += 1;
    Ok(perform(alloc, instruction, spot, scopes, procs, left)?)
}

//! The instructions of formulas.

ghost use Rattle.std.specs.Prelude.{◌≡◌, ◌≤◌, ◌-◌, length, Err, Some, IfOk, IfSome, if◌then◌else◌};
ghost use Rattle.acts.specs.Flaw as flaw;
ghost use Rattle.state.specs.Evaluated.{told as told_of};
ghost use Rattle.meanings.specs.Meaning.{Meaning};
ghost use Rattle.meanings.specs.View.{Answers};
ghost use Rattle.operators.specs.Binary.{binary as meant};
ghost use Rattle.operators.specs.Numeric.{GivesNumber};
ghost use Rattle.operators.specs.Truth.{truth_of};
ghost use Rattle.operators.specs.Unary.{unary as prefixed};
ghost use Rattle.state.specs.Prelude.{Status};
ghost use Rattle.steps.specs.Does.{Does};
ghost use Rattle.steps.specs.Formulas.{calling, choosing, deciding, gives, joining_both, on_truth, prefixing, putting, resulting, telling, unless as unless_of};
ghost use Rattle.steps.specs.Handling.{fails};
ghost use Rattle.steps.specs.Moves.{jumping};
ghost use Rattle.steps.specs.Spot.{Went};
ghost use Rattle.steps.specs.View.{did_of, spot_of};

use crate::handling::failed;
use crate::progress::Progress;
use crate::spot::Spot;
use acts::{Fault, NoMemory, Raise};
use operators::{Operand, binary, call, holds, number_in, of_both, of_one, result, truth, unary};
use std::alloc::Allocator;
use tclparse::{Binary, Function, Unary};
use tcltext::Value;

/// Puts the value of a function of texts on top, or fails with its error.
#[inline(always)]
fn settle<A: Allocator + Copy>(
    alloc: A,
    spot: &mut Spot<A>,
    value: Result<Operand<A>, Raise<A>>,
) -> Result<Progress, NoMemory>
    ensures does { (meaning : Meaning) (s : Status) → Answers meaning value →
        IfOk result (λ progress. Does (gives meaning (spot_of spot.old) s)
        (did_of progress spot.new s)) }
    ensures place { spot.old.place ≤ spot.new.place }
{
    match value {
        Ok(value) => Ok(spot.put(value.into_text(alloc)?)?),
        Err(raise) => Ok(fail(alloc, spot, raise)?),
    }
}

/// Fails with the error of a function of texts.
#[cold]
#[inline(never)]
pub(crate) fn fail<A: Allocator + Copy>(
    alloc: A,
    spot: &mut Spot<A>,
    raise: Raise<A>,
) -> Result<Progress, NoMemory>
    ensures does { (meaning : Meaning) (s : Status) → Answers meaning (Err raise) →
        IfOk result (λ progress. Does (gives meaning (spot_of spot.old) s)
        (did_of progress spot.new s)) }
    ensures place { spot.old.place ≤ spot.new.place }
{
    match raise {
        Raise::Fault(fault) => Ok(failed(alloc, spot, fault)?),
        Raise::NoMemory(refusal) => Err(refusal),
    }
}

/// A numeral is refused whose number is not within 64 bits.
#[cold]
#[inline(never)]
fn refuse_numeral<A: Allocator + Copy>(alloc: A, spot: &mut Spot<A>) -> Result<Progress, NoMemory>
    ensures does { (s : Status) → IfOk result (λ progress.
        did_of progress spot.new s ≡ fails flaw.OutOfRange (spot_of spot.old) s) }
    ensures place { spot.old.place ≤ spot.new.place }
{
    Ok(failed(alloc, spot, Fault::OutOfRange)?)
}

/// Puts the value of a numeral on top.
pub fn number<A: Allocator + Copy>(
    alloc: A,
    spot: &mut Spot<A>,
    digits: &Value<A>,
) -> Result<Progress, NoMemory>
    ensures does { (s : Status) → IfOk result (λ progress.
        Does (putting digits.now (spot_of spot.old) s) (did_of progress spot.new s)) }
    ensures place { spot.old.place ≤ spot.new.place }
{
    match number_in(digits) {
        Some(_) => Ok(spot.put_shared(digits)?),
        None => Ok(refuse_numeral(alloc, spot)?),
    }
}

/// The number that a prefix operator gives for a text. `None` says nothing: the text may be no
/// number, or the operator may give no number for it.
#[inline(always)]
fn number_of_one<A: Allocator>(operator: Unary, operand: &Value<A>) -> Option<i64>
    ensures { IfSome result (GivesNumber (prefixed operator operand.now)) }
{
    of_one(operator, number_in(operand)?)
}

/// Puts the value of a prefix operator for a text on top.
#[inline(never)]
fn put_prefixed<A: Allocator + Copy>(
    alloc: A,
    spot: &mut Spot<A>,
    operator: Unary,
    operand: Value<A>,
) -> Result<Progress, NoMemory>
    ensures does { (s : Status) → IfOk result (λ progress. Does
        (gives (prefixed operator operand) (spot_of spot.old) s) (did_of progress spot.new s)) }
    ensures place { spot.old.place ≤ spot.new.place }
{
    let value = unary(alloc, operator, &Operand::text(operand));
    Ok(settle(alloc, spot, value)?)
}

/// Replaces the operand on top by the value of a prefix operator.
pub fn prefix<A: Allocator + Copy>(
    alloc: A,
    spot: &mut Spot<A>,
    operator: Unary,
) -> Result<Progress, NoMemory>
    ensures does { (s : Status) → IfOk result (λ progress.
        Does (prefixing operator (spot_of spot.old) s) (did_of progress spot.new s)) }
    ensures place { spot.old.place ≤ spot.new.place }
{
    let Some(value) = spot.operands.pop() else {
        return Ok(Progress::Stuck);
    };
    match number_of_one(operator, &value) {
        Some(n) => Ok(spot.put(Value::int(alloc, n)?)?),
        None => Ok(put_prefixed(alloc, spot, operator, value)?),
    }
}

/// The number that an operator gives for two texts. `None` says nothing: one of them may be no
/// number, or the operator may give no number for these.
#[inline(always)]
fn number_of_both<A: Allocator>(operator: Binary, left: &Value<A>, right: &Value<A>) -> Option<i64>
    ensures { IfSome result (GivesNumber (meant operator left.now right.now)) }
{
    match (number_in(left), number_in(right)) {
        (Some(x), Some(y)) => of_both(operator, x, y),
        _ => None,
    }
}

/// Puts the value of an operator for two texts on top.
#[inline(never)]
fn put_joined<A: Allocator + Copy>(
    alloc: A,
    spot: &mut Spot<A>,
    operator: Binary,
    left: Value<A>,
    right: Value<A>,
) -> Result<Progress, NoMemory>
    ensures does { (s : Status) → IfOk result (λ progress. Does
        (gives (meant operator left right) (spot_of spot.old) s) (did_of progress spot.new s)) }
    ensures place { spot.old.place ≤ spot.new.place }
{
    let value = binary(alloc, operator, &Operand::text(left), &Operand::text(right));
    Ok(settle(alloc, spot, value)?)
}

/// Replaces the two upper operands by the value of an operator.
pub fn join_both<A: Allocator + Copy>(
    alloc: A,
    spot: &mut Spot<A>,
    operator: Binary,
) -> Result<Progress, NoMemory>
    ensures does { (s : Status) → IfOk result (λ progress.
        Does (joining_both operator (spot_of spot.old) s) (did_of progress spot.new s)) }
    ensures place { spot.old.place ≤ spot.new.place }
{
    let Some(right) = spot.operands.pop() else {
        return Ok(Progress::Stuck);
    };
    let Some(left) = spot.operands.pop() else {
        return Ok(Progress::Stuck);
    };
    match number_of_both(operator, &left, &right) {
        Some(n) => Ok(spot.put(Value::int(alloc, n)?)?),
        None => Ok(put_joined(alloc, spot, operator, left, right)?),
    }
}

/// The truth value of an operand as 0 or 1.
fn told<A: Allocator + Copy>(alloc: A, operand: &Operand<A>) -> Result<Operand<A>, Raise<A>>
    ensures { Answers (told_of (truth_of operand.now)) result }
{
    match truth(alloc, operand) {
        Ok(holds) => Ok(Operand::truth(holds)),
        Err(fault) => Err(fault),
    }
}

/// Replaces the operand on top by its truth value.
pub fn tell<A: Allocator + Copy>(alloc: A, spot: &mut Spot<A>) -> Result<Progress, NoMemory>
    ensures does { (s : Status) → IfOk result (λ progress.
        Does (telling (spot_of spot.old) s) (did_of progress spot.new s)) }
    ensures place { spot.old.place ≤ spot.new.place }
{
    let Some(value) = spot.operands.pop() else {
        return Ok(Progress::Stuck);
    };
    let value = told(alloc, &Operand::text(value));
    Ok(settle(alloc, spot, value)?)
}

/// Replaces the value of a formula on top by what `expr` gives.
pub fn give_result<A: Allocator + Copy>(alloc: A, spot: &mut Spot<A>) -> Result<Progress, NoMemory>
    ensures does { (s : Status) → IfOk result (λ progress.
        did_of progress spot.new s ≡ resulting (spot_of spot.old) s) }
    ensures place { spot.old.place ≤ spot.new.place }
{
    let Some(value) = spot.operands.pop() else {
        return Ok(Progress::Stuck);
    };
    let text = result(alloc, Operand::text(value))?;
    Ok(spot.put(text)?)
}

/// This place is next; there is no way back.
pub fn jump<A: Allocator + Copy>(spot: &mut Spot<A>, place: usize) -> Progress
    ensures does { (s : Status) →
        did_of result spot.new s ≡ jumping place (spot_of spot.old) s }
    ensures place { spot.old.place ≤ spot.new.place }
{
    if place < spot.place {
        return Progress::Stuck;
    }
    spot.place = place;
    Progress::GoesOn
}

/// Where the left operand has the truth value that decides, puts that on top and jumps.
fn decide<A: Allocator + Copy>(
    alloc: A,
    spot: &mut Spot<A>,
    place: usize,
    known: bool,
    holds: bool,
) -> Result<Progress, NoMemory>
    ensures does { (s : Status) → IfOk result (λ progress.
        did_of progress spot.new s ≡ deciding known holds place (spot_of spot.old) s) }
    ensures place { spot.old.place ≤ spot.new.place }
{
    if known != holds {
        return Ok(Progress::GoesOn);
    }
    let value = Operand::truth(holds).into_text(alloc)?;
    spot.operands.push(value)?;
    Ok(jump(spot, place))
}

/// After the left operand of `&&` or `||`, which is decided by this truth value.
pub fn choose<A: Allocator + Copy>(
    alloc: A,
    spot: &mut Spot<A>,
    place: usize,
    known: bool,
) -> Result<Progress, NoMemory>
    ensures does { (s : Status) → IfOk result (λ progress.
        did_of progress spot.new s ≡ choosing place known (spot_of spot.old) s) }
    ensures place { spot.old.place ≤ spot.new.place }
{
    let Some(value) = spot.operands.pop() else {
        return Ok(Progress::Stuck);
    };
    match truth(alloc, &Operand::text(value)) {
        Ok(holds) => Ok(decide(alloc, spot, place, known, holds)?),
        Err(Raise::Fault(fault)) => Ok(failed(alloc, spot, fault)?),
        Err(Raise::NoMemory(refusal)) => Err(refusal),
    }
}

/// Where a test does not hold, this place is next.
fn jump_where_not<A: Allocator + Copy>(spot: &mut Spot<A>, holds: bool, place: usize) -> Progress
    ensures does { (s : Status) → did_of result spot.new s
        ≡ (if holds then Went (spot_of spot.old) s else jumping place (spot_of spot.old) s) }
    ensures place { spot.old.place ≤ spot.new.place }
{
    if holds {
        Progress::GoesOn
    } else {
        jump(spot, place)
    }
}

/// Jumps where a truth value is false that is no number.
#[inline(never)]
fn jump_unless_word<A: Allocator + Copy>(
    alloc: A,
    spot: &mut Spot<A>,
    word: Value<A>,
    place: usize,
) -> Result<Progress, NoMemory>
    ensures does { (s : Status) → IfOk result (λ progress. did_of progress spot.new s
        ≡ on_truth (truth_of word) (spot_of spot.old) s (λ holds.
        if holds then Went (spot_of spot.old) s else jumping place (spot_of spot.old) s)) }
    ensures place { spot.old.place ≤ spot.new.place }
{
    match truth(alloc, &Operand::text(word)) {
        Ok(holds) => Ok(jump_where_not(spot, holds, place)),
        Err(Raise::Fault(fault)) => Ok(failed(alloc, spot, fault)?),
        Err(Raise::NoMemory(refusal)) => Err(refusal),
    }
}

/// Drops the truth value on top, and jumps where it is false.
pub fn jump_unless<A: Allocator + Copy>(
    alloc: A,
    spot: &mut Spot<A>,
    place: usize,
) -> Result<Progress, NoMemory>
    ensures does { (s : Status) → IfOk result (λ progress.
        did_of progress spot.new s ≡ unless_of place (spot_of spot.old) s) }
    ensures place { spot.old.place ≤ spot.new.place }
{
    let Some(value) = spot.operands.pop() else {
        return Ok(Progress::Stuck);
    };
    match number_in(&value) {
        Some(n) => Ok(jump_where_not(spot, holds(n), place)),
        None => Ok(jump_unless_word(alloc, spot, value, place)?),
    }
}

/// Texts as operands.
fn as_operands<A: Allocator + Copy>(
    alloc: A,
    texts: &[Value<A>],
) -> Result<Vec<Operand<A>, A>, NoMemory>
    ensures { IfOk result (λ operands. operands.items ≡ texts.now) }
{
    let mut operands = Vec::with_capacity(alloc, texts.len())?;
    for text in texts {
        operands.push(Operand::text(text.share()?))?;
    }
    Ok(operands)
}

/// Replaces this many upper operands by the value of a function.
pub fn apply<A: Allocator + Copy>(
    alloc: A,
    spot: &mut Spot<A>,
    function: Function,
    n: usize,
) -> Result<Progress, NoMemory>
    ensures does { (s : Status) → IfOk result (λ progress. Does
        (calling function (length (spot_of spot.old).operands - n) (spot_of spot.old) s)
        (did_of progress spot.new s)) }
    ensures place { spot.old.place ≤ spot.new.place }
{
    let below = spot.operands.len().saturating_sub(n);
    let texts = spot.operands.split_off(below)?;
    let operands = as_operands(alloc, &texts)?;
    let value = call(alloc, function, &operands);
    Ok(settle(alloc, spot, value)?)
}

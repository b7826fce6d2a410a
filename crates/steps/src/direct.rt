//! Instructions that are commands, with the value of their last word on top (set(n); append(n);
//! incr(n); return(n)).

ghost use Rattle.std.specs.Prelude.{◌≡◌, ◌≤◌, ◌∷◌, [], ℕ, List, Result as Meant, codes, IfOk};
ghost use Rattle.kinds.specs.Answers.{Keeps};
ghost use Rattle.state.specs.Prelude.{Flaw, Scopes as Variables, Status};
ghost use Rattle.steps.specs.Direct.{adding, appending, by_words, changed, incrementing, returning, setting};
ghost use Rattle.steps.specs.Moves.{on_top};
ghost use Rattle.steps.specs.Storing.{storing};
ghost use Rattle.steps.specs.View.{did_of, spot_of, with_parts};
ghost use Rattle.tclparse.specs.Variable.{named};
ghost use Rattle.tclstate.specs.Pairs.{found};

use crate::handling::{failed, resume};
use crate::progress::Progress;
use crate::spot::Spot;
use crate::storing::store;
use acts::{NoMemory, Raise};
use state::{Code, Leave};
use std::alloc::Allocator;
use tclstate::{Procs, Scopes};
use tcltext::Value;
use variables::{append, incr};

/// A command begins by its words, which are these and the value on top.
fn begin_by_words<A: Allocator + Copy>(
    spot: &mut Spot<A>,
    mut words: Vec<Value<A>, A>,
) -> Result<Progress, NoMemory>
    ensures does { (s : Status) → IfOk result (λ progress.
        did_of progress spot.new s ≡ by_words words.items (spot_of spot.old) s) }
    ensures place { spot.old.place ≤ spot.new.place }
{
    let Some(value) = spot.operands.pop() else {
        return Ok(Progress::Stuck);
    };
    words.push(value)?;
    Ok(spot.begin_by(words)?)
}

/// A command of this name begins by its words, which are the name and the value on top.
#[cold]
#[inline(never)]
fn begin_named<A: Allocator + Copy>(
    alloc: A,
    spot: &mut Spot<A>,
    name: &[u8],
) -> Result<Progress, NoMemory>
    ensures does { (s : Status) → IfOk result (λ progress.
        did_of progress spot.new s ≡ by_words (name.now ∷ []) (spot_of spot.old) s) }
    ensures place { spot.old.place ≤ spot.new.place }
{
    let words = Vec::from_array(alloc, [Value::from_slice(alloc, name)?])?;
    Ok(begin_by_words(spot, words)?)
}

/// A command of this name, with the name of a variable and the value on top, begins by its words.
#[cold]
#[inline(never)]
fn begin_on<A: Allocator + Copy>(
    alloc: A,
    spot: &mut Spot<A>,
    command: &[u8],
    name: &Value<A>,
) -> Result<Progress, NoMemory>
    ensures does { (s : Status) → IfOk result (λ progress. did_of progress spot.new s
        ≡ by_words (command.now ∷ name.now ∷ []) (spot_of spot.old) s) }
    ensures place { spot.old.place ≤ spot.new.place }
{
    let words = Vec::from_array(alloc, [Value::from_slice(alloc, command)?, name.share()?])?;
    Ok(begin_by_words(spot, words)?)
}

/// The variable of this name takes the value on top, which stays there.
#[inline(always)]
fn store_top<A: Allocator + Copy>(
    alloc: A,
    spot: &mut Spot<A>,
    scopes: &mut Scopes<A>,
    name: &Value<A>,
) -> Result<Progress, NoMemory>
    ensures does { (s : Status) → IfOk result (λ progress.
        did_of progress spot.new (with_parts scopes.new s.procedures s.left s)
        ≡ on_top (spot_of spot.old).operands (λ value below.
        storing (named name.now) value (spot_of spot.old)
        (with_parts scopes.old s.procedures s.left s))) }
    ensures place { spot.old.place ≤ spot.new.place }
{
    let Some(value) = spot.operands.last() else {
        return Ok(Progress::Stuck);
    };
    let value = value.share()?;
    Ok(store(alloc, spot, scopes, name.as_slice(), value)?)
}

/// The variable of this name takes the value on top, which stays there; where a procedure hides
/// `set`, that begins by its words.
pub fn set<A: Allocator + Copy>(
    alloc: A,
    spot: &mut Spot<A>,
    scopes: &mut Scopes<A>,
    procs: &Procs<A>,
    name: &Value<A>,
) -> Result<Progress, NoMemory>
    ensures does { (s : Status) → s.procedures ≡ procs.now → IfOk result (λ progress.
        did_of progress spot.new (with_parts scopes.new s.procedures s.left s)
        ≡ setting (found s.procedures (codes "set")) name.now (spot_of spot.old)
        (with_parts scopes.old s.procedures s.left s)) }
    ensures place { spot.old.place ≤ spot.new.place }
{
    match procs.get(b"set") {
        Some(_) => Ok(begin_on(alloc, spot, b"set", name)?),
        None => Ok(store_top(alloc, spot, scopes, name)?),
    }
}

/// Puts the value of a change of the variables on top, or fails with its error.
#[inline(always)]
fn give_change<A: Allocator + Copy>(
    alloc: A,
    spot: &mut Spot<A>,
    answer: Result<Value<A>, Raise<A>>,
) -> Result<Progress, NoMemory>
    ensures does { (meant : Meant (Variables × List ℕ) Flaw) (old new : Variables) (s : Status) →
        Keeps meant old answer new → IfOk result (λ progress.
        did_of progress spot.new (with_parts new s.procedures s.left s)
        ≡ changed meant (spot_of spot.old) (with_parts old s.procedures s.left s)) }
    ensures place { spot.old.place ≤ spot.new.place }
{
    match answer {
        Ok(value) => Ok(spot.put(value)?),
        Err(Raise::Fault(fault)) => Ok(failed(alloc, spot, fault)?),
        Err(Raise::NoMemory(refusal)) => Err(refusal),
    }
}

/// Adds one to the variable of the name on top, whose place the sum takes; where a procedure hides
/// `incr`, that begins by its words. Mostly the sum is written where the variable stands, which
/// needs no room for an error.
pub fn increment<A: Allocator + Copy>(
    alloc: A,
    spot: &mut Spot<A>,
    scopes: &mut Scopes<A>,
    procs: &Procs<A>,
) -> Result<Progress, NoMemory>
    ensures does { (s : Status) → s.procedures ≡ procs.now → IfOk result (λ progress.
        did_of progress spot.new (with_parts scopes.new s.procedures s.left s)
        ≡ incrementing (found s.procedures (codes "incr")) (spot_of spot.old)
        (with_parts scopes.old s.procedures s.left s)) }
    ensures place { spot.old.place ≤ spot.new.place }
{
    if procs.get(b"incr").is_some() {
        return Ok(begin_named(alloc, spot, b"incr")?);
    }
    let Some(name) = spot.operands.pop() else {
        return Ok(Progress::Stuck);
    };
    if let Some(sum) = incr::add_in_place(scopes, name.as_slice(), None) {
        return Ok(spot.put(sum)?);
    }
    let sum = incr::begin(alloc, scopes, &[name]);
    Ok(give_change(alloc, spot, sum)?)
}

/// Adds the number on top to the variable of this name, whose sum takes its place; where a
/// procedure hides `incr`, that begins by its words.
pub fn add<A: Allocator + Copy>(
    alloc: A,
    spot: &mut Spot<A>,
    scopes: &mut Scopes<A>,
    procs: &Procs<A>,
    name: &Value<A>,
) -> Result<Progress, NoMemory>
    ensures does { (s : Status) → s.procedures ≡ procs.now → IfOk result (λ progress.
        did_of progress spot.new (with_parts scopes.new s.procedures s.left s)
        ≡ adding (found s.procedures (codes "incr")) name.now (spot_of spot.old)
        (with_parts scopes.old s.procedures s.left s)) }
    ensures place { spot.old.place ≤ spot.new.place }
{
    if procs.get(b"incr").is_some() {
        return Ok(begin_on(alloc, spot, b"incr", name)?);
    }
    let Some(by) = spot.operands.pop() else {
        return Ok(Progress::Stuck);
    };
    let sum = incr::begin(alloc, scopes, &[name.share()?, by]);
    Ok(give_change(alloc, spot, sum)?)
}

/// Puts the text on top after that of the variable of this name, whose new text takes its place;
/// where a procedure hides `append`, that begins by its words.
pub fn append<A: Allocator + Copy>(
    alloc: A,
    spot: &mut Spot<A>,
    scopes: &mut Scopes<A>,
    procs: &Procs<A>,
    name: &Value<A>,
) -> Result<Progress, NoMemory>
    ensures does { (s : Status) → s.procedures ≡ procs.now → IfOk result (λ progress.
        did_of progress spot.new (with_parts scopes.new s.procedures s.left s)
        ≡ appending (found s.procedures (codes "append")) name.now (spot_of spot.old)
        (with_parts scopes.old s.procedures s.left s)) }
    ensures place { spot.old.place ≤ spot.new.place }
{
    if procs.get(b"append").is_some() {
        return Ok(begin_on(alloc, spot, b"append", name)?);
    }
    let Some(text) = spot.operands.pop() else {
        return Ok(Progress::Stuck);
    };
    let whole = append::begin(alloc, scopes, &[name.share()?, text]);
    Ok(give_change(alloc, spot, whole)?)
}

/// The script is left by `return` with the value on top; where a procedure hides `return`, that
/// begins by its words.
pub fn leave_by_return<A: Allocator + Copy>(
    alloc: A,
    spot: &mut Spot<A>,
    procs: &Procs<A>,
) -> Result<Progress, NoMemory>
    ensures does { (s : Status) → s.procedures ≡ procs.now → IfOk result (λ progress.
        did_of progress spot.new s
        ≡ returning (found s.procedures (codes "return")) (spot_of spot.old) s) }
    ensures place { spot.old.place ≤ spot.new.place }
{
    if procs.get(b"return").is_some() {
        return Ok(begin_named(alloc, spot, b"return")?);
    }
    let Some(value) = spot.operands.pop() else {
        return Ok(Progress::Stuck);
    };
    Ok(resume(spot, Err(Leave::Coded(Code::Return, value)))?)
}

//! Commands whose words are operands: those that are functions of their words are over at once, and
//! all others begin.

ghost use Rattle.std.specs.Prelude.{◌≡◌, ◌≤◌, ◌-◌, Some, drop, length, reverse, IfOk};
ghost use Rattle.meanings.specs.Meaning.{Meaning};
ghost use Rattle.meanings.specs.View.{Answers};
ghost use Rattle.state.specs.Prelude.{Status};
ghost use Rattle.steps.specs.Does.{Does};
ghost use Rattle.steps.specs.Formulas.{gives};
ghost use Rattle.steps.specs.Machine.{function_in as meant_function, performing, starting};
ghost use Rattle.steps.specs.View.{did_of, spot_of};

use crate::operating::fail;
use crate::progress::Progress;
use crate::spot::Spot;
use acts::{NoMemory, Raise};
use pure::Pure;
use std::alloc::Allocator;
use tclstate::Procs;
use tcltext::Value;

/// The function of its words that a command is, of which the first is its name, where no procedure
/// hides it.
#[inline(always)]
fn function_in<A: Allocator>(procs: &Procs<A>, words: &[Value<A>]) -> Option<Pure>
    ensures { result ≡ meant_function words.now procs.now }
{
    let [name, ..] = words else {
        return None;
    };
    let function = Pure::named(name.as_slice())?;
    match procs.get(name.as_slice()) {
        Some(_) => None,
        None => Some(function),
    }
}

/// Puts the value of a function of texts on top, or fails with its error.
#[inline(always)]
fn give<A: Allocator + Copy>(
    alloc: A,
    spot: &mut Spot<A>,
    answer: Result<Value<A>, Raise<A>>,
) -> Result<Progress, NoMemory>
    ensures does { (meaning : Meaning) (s : Status) → Answers meaning answer →
        IfOk result (λ progress. Does (gives meaning (spot_of spot.old) s)
        (did_of progress spot.new s)) }
    ensures place { spot.old.place ≤ spot.new.place }
{
    match answer {
        Ok(value) => Ok(spot.put(value)?),
        Err(raise) => Ok(fail(alloc, spot, raise)?),
    }
}

/// The upper ones of some operands, which are this many, the top one last.
fn upper<A: Allocator>(operands: &[Value<A>], n: usize) -> &[Value<A>]
    ensures { result.now ≡ drop (length operands.now - n) operands.now }
{
    &operands[operands.len().saturating_sub(n)..]
}

/// The words after the name of a command.
fn words_after<A: Allocator>(words: &[Value<A>]) -> &[Value<A>]
    ensures { result.now ≡ drop 1 words.now }
{
    match words {
        [_, args @ ..] => args,
        [] => &[],
    }
}

/// Replaces this many upper operands, a name and the words after it, by the value of a function of
/// these words. What it may answer is wide, so this is apart from commands that begin.
#[inline(never)]
fn put_value<A: Allocator + Copy>(
    alloc: A,
    spot: &mut Spot<A>,
    function: Pure,
    n: usize,
) -> Result<Progress, NoMemory>
    ensures does { (s : Status) → IfOk result (λ progress.
        let operands = (spot_of spot.old).operands in let below = length operands - n in
        Does (performing (Some function) (drop below (reverse operands)) below (spot_of spot.old) s)
        (did_of progress spot.new s)) }
    ensures place { spot.old.place ≤ spot.new.place }
{
    let below = spot.operands.len().saturating_sub(n);
    let answer = function.apply(alloc, words_after(upper(&spot.operands, n)));
    spot.operands.truncate(below);
    Ok(give(alloc, spot, answer)?)
}

/// Begins a command, whose words are this many operands; where it is a function of its words, and
/// no procedure hides it, its value takes their place instead.
///
/// # Errors
/// `NoMemory` where memory is refused.
#[inline(always)]
pub fn start<A: Allocator + Copy>(
    alloc: A,
    spot: &mut Spot<A>,
    procs: &Procs<A>,
    n: usize,
) -> Result<Progress, NoMemory>
    ensures does { (s : Status) → s.procedures ≡ procs.now → IfOk result (λ progress. Does
        (starting (length (spot_of spot.old).operands - n) (spot_of spot.old) s)
        (did_of progress spot.new s)) }
    ensures place { spot.old.place ≤ spot.new.place }
{
    let below = spot.operands.len().saturating_sub(n);
    match function_in(procs, upper(&spot.operands, n)) {
        Some(function) => Ok(put_value(alloc, spot, function, n)?),
        None => Ok(spot.begin(below)),
    }
}

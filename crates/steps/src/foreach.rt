//! The instructions of `foreach` (foreach(n)).

ghost use Rattle.std.specs.Prelude.{◌≡◌, ◌≤◌, [], ◌∷◌, codes, Ok, IfOk};
ghost use Rattle.state.specs.Piece.{ListText};
ghost use Rattle.state.specs.Prelude.{Status};
ghost use Rattle.steps.specs.Does.{Does};
ghost use Rattle.steps.specs.Foreach.{assigning, by_words, dealing, dealt, finishing, hidden, looking};
ghost use Rattle.steps.specs.Spot.{Reads as reads_text};
ghost use Rattle.steps.specs.View.{did_of, spot_of, with_parts};
ghost use Rattle.tclstate.specs.Pairs.{found};

use crate::handling::failed;
use crate::operating::jump;
use crate::progress::Progress;
use crate::spot::Spot;
use crate::storing::{keep, store};
use acts::{NoMemory, Raise};
use meanings::elements;
use std::alloc::Allocator;
use tclstate::{Procs, Scopes};
use tcltext::Value;

/// The words of a `foreach` with one list.
fn words_of<A: Allocator + Copy>(
    alloc: A,
    variables: &Value<A>,
    list: Value<A>,
    body: &Value<A>,
) -> Result<Vec<Value<A>, A>, NoMemory>
    ensures { IfOk result (λ words.
        words.items ≡ codes "foreach" ∷ variables.now ∷ list ∷ body.now ∷ []) }
{
    let name = Value::from_slice(alloc, b"foreach")?;
    let variables = variables.share()?;
    let body = body.share()?;
    Ok(Vec::from_array(alloc, [name, variables, list, body])?)
}

/// A `foreach` begins by its words, of which the list is on top, and this place is next.
fn begin_by_words<A: Allocator + Copy>(
    alloc: A,
    spot: &mut Spot<A>,
    variables: &Value<A>,
    body: &Value<A>,
    place: usize,
) -> Result<Progress, NoMemory>
    ensures does { (s : Status) → IfOk result (λ progress. did_of progress spot.new s
        ≡ by_words variables.now body.now place (spot_of spot.old) s) }
    ensures place { spot.old.place ≤ spot.new.place }
{
    let Some(list) = spot.operands.pop() else {
        return Ok(Progress::Stuck);
    };
    if place < spot.place {
        return Ok(Progress::Stuck);
    }
    spot.place = place;
    let words = words_of(alloc, variables, list, body)?;
    Ok(spot.begin_by(words)?)
}

/// Where a procedure hides a `foreach`, it begins by its words.
pub fn begin_foreach<A: Allocator + Copy>(
    alloc: A,
    spot: &mut Spot<A>,
    procs: &Procs<A>,
    variables: &Value<A>,
    body: &Value<A>,
    place: usize,
) -> Result<Progress, NoMemory>
    ensures does { (s : Status) → s.procedures ≡ procs.now → IfOk result (λ progress.
        did_of progress spot.new s
        ≡ hidden (found s.procedures (codes "foreach")) variables.now body.now place
        (spot_of spot.old) s) }
    ensures place { spot.old.place ≤ spot.new.place }
{
    match procs.get(b"foreach") {
        Some(_) => Ok(begin_by_words(alloc, spot, variables, body, place)?),
        None => Ok(Progress::GoesOn),
    }
}

/// Puts the elements of a list on top, the first one uppermost, marks them, and jumps.
fn put_elements<A: Allocator + Copy>(
    spot: &mut Spot<A>,
    mut elements: Vec<Value<A>, A>,
    place: usize,
) -> Result<Progress, NoMemory>
    ensures does { (s : Status) → IfOk result (λ progress. did_of progress spot.new s
        ≡ dealt place (spot_of spot.old) s (Ok elements.items)) }
    ensures place { spot.old.place ≤ spot.new.place }
{
    spot.marks.push(spot.operands.len())?;
    elements.reverse();
    spot.operands.append(&mut elements)?;
    Ok(jump(spot, place))
}

/// Puts the elements of a text that is read as the list of a `foreach` on top, and jumps.
fn deal_text<A: Allocator + Copy>(
    alloc: A,
    spot: &mut Spot<A>,
    text: &[u8],
    place: usize,
) -> Result<Progress, NoMemory>
    ensures does { (s : Status) → IfOk result (λ progress.
        Does (reads_text (ListText text.now) (dealt place (spot_of spot.old) s))
        (did_of progress spot.new s)) }
    ensures place { spot.old.place ≤ spot.new.place }
{
    match elements(alloc, text) {
        Ok(elements) => Ok(put_elements(spot, elements, place)?),
        Err(Raise::Fault(fault)) => Ok(failed(alloc, spot, fault)?),
        Err(Raise::NoMemory(refusal)) => Err(refusal),
    }
}

/// Puts the elements of the list on top in its place, the first one uppermost, and jumps.
pub fn deal<A: Allocator + Copy>(
    alloc: A,
    spot: &mut Spot<A>,
    place: usize,
) -> Result<Progress, NoMemory>
    ensures does { (s : Status) → IfOk result (λ progress.
        Does (dealing place (spot_of spot.old) s) (did_of progress spot.new s)) }
    ensures place { spot.old.place ≤ spot.new.place }
{
    let Some(text) = spot.operands.pop() else {
        return Ok(Progress::Stuck);
    };
    Ok(deal_text(alloc, spot, text.as_slice(), place)?)
}

/// Where no element is left, this place is next.
pub fn look<A: Allocator + Copy>(spot: &mut Spot<A>, place: usize) -> Progress
    ensures does { (s : Status) → did_of result spot.new s ≡ looking place (spot_of spot.old) s }
    ensures place { spot.old.place ≤ spot.new.place }
{
    let Some(mark) = spot.marks.last() else {
        return Progress::Stuck;
    };
    if spot.operands.len() <= *mark {
        return jump(spot, place);
    }
    Progress::GoesOn
}

/// The variable of this name takes the next element.
pub fn assign<A: Allocator + Copy>(
    alloc: A,
    spot: &mut Spot<A>,
    scopes: &mut Scopes<A>,
    word: &Value<A>,
) -> Result<Progress, NoMemory>
    ensures does { (s : Status) → IfOk result (λ progress.
        did_of progress spot.new (with_parts scopes.new s.procedures s.left s)
        ≡ assigning word.now (spot_of spot.old)
        (with_parts scopes.old s.procedures s.left s)) }
    ensures place { spot.old.place ≤ spot.new.place }
{
    let Some(mark) = spot.marks.last() else {
        return Ok(Progress::Stuck);
    };
    if spot.operands.len() <= *mark {
        return Ok(store(alloc, spot, scopes, word.as_slice(), Value::empty())?);
    }
    Ok(keep(alloc, spot, scopes, word)?)
}

/// Drops the elements that are left, and puts the empty text on top.
pub fn finish<A: Allocator + Copy>(spot: &mut Spot<A>) -> Result<Progress, NoMemory>
    ensures does { (s : Status) → IfOk result (λ progress.
        did_of progress spot.new s ≡ finishing (spot_of spot.old) s) }
    ensures place { spot.new.place ≡ spot.old.place }
{
    let Some(mark) = spot.marks.pop() else {
        return Ok(Progress::Stuck);
    };
    spot.operands.truncate(mark);
    Ok(spot.put(Value::empty())?)
}

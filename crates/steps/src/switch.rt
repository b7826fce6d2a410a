//! The instructions of `switch` (switch(n)).

ghost use Rattle.std.specs.Prelude.{◌≡◌, ◌≤◌, [], ◌∷◌, ◌++◌, codes, IfOk, OnOk};
ghost use Rattle.code.specs.Switch.{dashes_word, flag_word, words_before};
ghost use Rattle.state.specs.Prelude.{Status};
ghost use Rattle.steps.specs.Does.{Does};
ghost use Rattle.steps.specs.Switch.{by_words, choosing, comparing, going, hidden, is_string as no_option, matching};
ghost use Rattle.steps.specs.View.{did_of, spot_of};
ghost use Rattle.tclstate.specs.Pairs.{found};

use crate::operating::jump;
use crate::progress::Progress;
use crate::spot::Spot;
use acts::NoMemory;
use code::{Flag, Options};
use patterns::Pattern;
use state::arguments::begins_with_dash;
use std::alloc::Allocator;
use tclstate::Procs;
use tcltext::Value;

/// Whether the string of a `switch` is no option: it stands after `--`, or is the first of two
/// words, or begins with no dash.
fn is_string<A: Allocator>(options: Options, text: &[u8], after: &[Value<A>]) -> bool
    ensures { result ≡ no_option options text.now after.now }
{
    options.dashes || (options.flag.is_none() && after.len() == 1) || !begins_with_dash(text)
}

/// Puts a text after some words.
fn put_text<A: Allocator + Copy>(
    alloc: A,
    words: &mut Vec<Value<A>, A>,
    text: &[u8],
) -> Result<(), NoMemory>
    ensures { OnOk result (words.new.items ≡ words.old.items ++ text.now ∷ []) }
{
    let text = Value::from_slice(alloc, text)?;
    words.push(text)?;
    Ok(())
}

/// Puts a flag after some words, where there is one.
fn put_flag<A: Allocator + Copy>(
    alloc: A,
    words: &mut Vec<Value<A>, A>,
    flag: Option<Flag>,
) -> Result<(), NoMemory>
    ensures { OnOk result (words.new.items ≡ words.old.items ++ flag_word flag) }
{
    match flag {
        Some(Flag::Exact) => Ok(put_text(alloc, words, b"-exact")?),
        Some(Flag::Glob) => Ok(put_text(alloc, words, b"-glob")?),
        None => Ok(()),
    }
}

/// Puts `--` after some words, where it is there.
fn put_dashes<A: Allocator + Copy>(
    alloc: A,
    words: &mut Vec<Value<A>, A>,
    dashes: bool,
) -> Result<(), NoMemory>
    ensures { OnOk result (words.new.items ≡ words.old.items ++ dashes_word dashes) }
{
    if dashes {
        put_text(alloc, words, b"--")?;
    }
    Ok(())
}

/// Texts that are shared.
fn shared<A: Allocator + Copy>(alloc: A, texts: &[Value<A>]) -> Result<Vec<Value<A>, A>, NoMemory>
    ensures { IfOk result (λ all. all.items ≡ texts.now) }
{
    let mut all = Vec::with_capacity(alloc, texts.len())?;
    for text in texts {
        let text = text.share()?;
        all.push(text)?;
    }
    Ok(all)
}

/// The words of a `switch` with this string.
fn words_of<A: Allocator + Copy>(
    alloc: A,
    options: Options,
    text: Value<A>,
    after: &[Value<A>],
) -> Result<Vec<Value<A>, A>, NoMemory>
    ensures { IfOk result (λ words. words.items ≡ words_before options ++ text ∷ after.now) }
{
    let mut words = Vec::new(alloc);
    put_text(alloc, &mut words, b"switch")?;
    put_flag(alloc, &mut words, options.flag)?;
    put_dashes(alloc, &mut words, options.dashes)?;
    words.push(text)?;
    let mut rest = shared(alloc, after)?;
    words.append(&mut rest)?;
    Ok(words)
}

/// A `switch` begins by its words, of which the string is on top, and this place is next.
fn begin_by_words<A: Allocator + Copy>(
    alloc: A,
    spot: &mut Spot<A>,
    options: Options,
    after: &[Value<A>],
    place: usize,
) -> Result<Progress, NoMemory>
    ensures does { (s : Status) → IfOk result (λ progress. did_of progress spot.new s
        ≡ by_words options after.now place (spot_of spot.old) s) }
    ensures place { spot.old.place ≤ spot.new.place }
{
    let Some(text) = spot.operands.pop() else {
        return Ok(Progress::Stuck);
    };
    if place < spot.place {
        return Ok(Progress::Stuck);
    }
    spot.place = place;
    let words = words_of(alloc, options, text, after)?;
    Ok(spot.begin_by(words)?)
}

/// Where the string on top is an option, the `switch` begins by its words.
fn begin_option<A: Allocator + Copy>(
    alloc: A,
    spot: &mut Spot<A>,
    options: Options,
    after: &[Value<A>],
    place: usize,
) -> Result<Progress, NoMemory>
    ensures does { (s : Status) → IfOk result (λ progress. did_of progress spot.new s
        ≡ choosing options after.now place (spot_of spot.old) s) }
    ensures place { spot.old.place ≤ spot.new.place }
{
    let Some(text) = spot.operands.last() else {
        return Ok(Progress::Stuck);
    };
    if is_string(options, text.as_slice(), after) {
        return Ok(Progress::GoesOn);
    }
    Ok(begin_by_words(alloc, spot, options, after, place)?)
}

/// Where a procedure hides a `switch`, or its string is an option, it begins by its words.
pub fn begin_switch<A: Allocator + Copy>(
    alloc: A,
    spot: &mut Spot<A>,
    procs: &Procs<A>,
    options: Options,
    after: &[Value<A>],
    place: usize,
) -> Result<Progress, NoMemory>
    ensures does { (s : Status) → s.procedures ≡ procs.now → IfOk result (λ progress.
        did_of progress spot.new s
        ≡ hidden (found s.procedures (codes "switch")) options after.now place
        (spot_of spot.old) s) }
    ensures place { spot.old.place ≤ spot.new.place }
{
    match procs.get(b"switch") {
        Some(_) => Ok(begin_by_words(alloc, spot, options, after, place)?),
        None => Ok(begin_option(alloc, spot, options, after, place)?),
    }
}

/// After a pattern that takes the string the first place is next, else the second.
fn go<A: Allocator + Copy>(spot: &mut Spot<A>, takes: bool, taken: usize, other: usize) -> Progress
    ensures does { (s : Status) → did_of result spot.new s
        ≡ going takes taken other (spot_of spot.old) s }
    ensures place { spot.old.place ≤ spot.new.place }
{
    if takes {
        jump(spot, taken)
    } else {
        jump(spot, other)
    }
}

/// Compares the string on top with a text.
pub fn compare<A: Allocator + Copy>(
    spot: &mut Spot<A>,
    pattern: &Value<A>,
    taken: usize,
    other: usize,
) -> Progress
    ensures does { (s : Status) → did_of result spot.new s
        ≡ comparing pattern.now taken other (spot_of spot.old) s }
    ensures place { spot.old.place ≤ spot.new.place }
{
    let Some(text) = spot.operands.last() else {
        return Progress::Stuck;
    };
    let takes = pattern.as_slice() == text.as_slice();
    go(spot, takes, taken, other)
}

/// Compares the string on top with a glob.
pub fn match_glob<A: Allocator + Copy>(
    spot: &mut Spot<A>,
    pattern: &Pattern<A>,
    taken: usize,
    other: usize,
) -> Progress
    ensures does { (s : Status) → Does (matching pattern.now taken other (spot_of spot.old) s)
        (did_of result spot.new s) }
    ensures place { spot.old.place ≤ spot.new.place }
{
    let Some(text) = spot.operands.last() else {
        return Progress::Stuck;
    };
    let takes = pattern.whole(text.as_slice());
    go(spot, takes, taken, other)
}

//! The code of `switch` whose words are literals, but for its string (switch(n)).

ghost use Rattle.std.specs.Prelude.{◌≡◌, ◌<◌, ◌∷◌, false, codes, length, IfOk, IfSome, OnOk};
ghost use Rattle.std.specs.Str.{bytes_eq};
ghost use Rattle.code.specs.Blocks.{ArmsBlock, ChosenBlock, RestBlock, SwitchBlock};
ghost use Rattle.code.specs.Code.{switch_words as words_of, test_of as test_for};
ghost use Rattle.code.specs.Switch.{AreArms, AreWhole, IsShort, are_globs, is_default};
ghost use Rattle.tclparse.specs.Tree.{Parts, no_words};
ghost use Rattle.tclparse.specs.View.{words_then};

use crate::arms::{arms_of, have_code, is_last_default, switch_words};
use crate::formula::fill;
use crate::instruction::Instruction;
use crate::literal::texts_of;
use crate::nest::Nest;
use crate::options::Options;
use memory::NoMemory;
use patterns::{Pattern, PatternError};
use std::alloc::Allocator;
use tclparse::Word;
use tcltext::Value;

/// A `switch`: its options, the words after its string, and its patterns with their bodies.
#[derive(Drop)]
pub(crate) struct Switch<A: Allocator> {
    pub options: Options,
    after: Vec<Value<A>, A>,
    arms: Vec<Value<A>, A>,
}

/// Reads the words of a command as those of `switch`. `None` where they are not that, where one of
/// them is no literal, but for the string, or where the patterns and bodies have no code.
pub(crate) fn read_switch<A: Allocator + Copy>(
    alloc: A,
    words: &[Word<A>],
) -> Result<Option<Switch<A>>, NoMemory>
    ensures { IfOk result (λ read. IfSome read (λ own. (string : Parts) ×
        (words_then words.now no_words ≡ words_of own.options string own.after.items) ×
        AreArms own.arms.items own.after.items ×
        AreWhole (are_globs own.options.flag) own.arms.items)) }
{
    let Some(found) = switch_words(words) else {
        return Ok(None);
    };
    let Some(after) = texts_of(alloc, found.after)? else {
        return Ok(None);
    };
    let Some(arms) = arms_of(alloc, &after)? else {
        return Ok(None);
    };
    let options = found.options;
    if !have_code(options.globs(), &arms) {
        return Ok(None);
    }
    Ok(Some(Switch {
        options,
        after,
        arms,
    }))
}

/// What compares the string with a pattern that is not too long: where that takes it, the first
/// place is next, else the second.
fn test_of<A: Allocator + Copy>(
    alloc: A,
    globs: bool,
    pattern: &Value<A>,
    taken: usize,
    other: usize,
) -> Result<Instruction<A>, NoMemory>
    ensures { IsShort globs pattern.now →
        IfOk result (λ it. it ≡ test_for globs pattern.now taken other) }
{
    if !globs {
        let pattern = pattern.share()?;
        return Ok(Instruction::Equals(pattern, taken, other));
    }
    match Pattern::plain(alloc, pattern.as_slice()) {
        Ok(pattern) => Ok(Instruction::Matches(pattern, taken, other)),
        Err(PatternError::TooLong) => Ok(Instruction::Hole),
        Err(PatternError::NoMemory(refusal)) => Err(refusal),
    }
}

/// Puts the code of a body, before which the string is dropped, and after which so many words
/// stand.
fn emit_chosen<A: Allocator + Copy, N: Nest<A>>(
    code: &mut Vec<Instruction<A>, A>,
    body: &Value<A>,
    after: usize,
    nest: &N,
) -> Result<(), NoMemory>
    ensures { OnOk result (ChosenBlock code.old.items code.new.items body.now) }
{
    code.push(Instruction::Discard)?;
    nest.put_body(code, body, after)?;
    Ok(())
}

/// Puts the code of a pattern that shares the body of the next one, and of those after it, and says
/// where that body stands.
#[cycle(emit_arms)]
fn emit_shared<A: Allocator + Copy, N: Nest<A>>(
    code: &mut Vec<Instruction<A>, A>,
    globs: bool,
    pattern: &Value<A>,
    more: &[Value<A>],
    nest: &N,
) -> Result<usize, NoMemory>
    ensures { is_default pattern.now more.now ≡ false → IsShort globs pattern.now →
        0 < length more.now → AreWhole globs more.now →
        IfOk result (λ at. ArmsBlock globs at code.old.items code.new.items
        (pattern.now ∷ codes "-" ∷ more.now)) }
{
    let test = code.len();
    code.push(Instruction::Hole)?;
    let next = code.len();
    let taken = emit_arms(code, globs, more, nest)?;
    let it = test_of(*code.allocator(), globs, pattern, taken, next)?;
    fill(code, test, it);
    Ok(taken)
}

/// Puts the code of a pattern with its body, and of those after it, and says where its body stands.
#[cycle(emit_arms)]
fn emit_arm<A: Allocator + Copy, N: Nest<A>>(
    code: &mut Vec<Instruction<A>, A>,
    globs: bool,
    pattern: &Value<A>,
    body: &Value<A>,
    more: &[Value<A>],
    nest: &N,
) -> Result<usize, NoMemory>
    ensures { is_default pattern.now more.now ≡ false → IsShort globs pattern.now →
        bytes_eq body.now (codes "-") ≡ false → AreWhole globs more.now →
        IfOk result (λ at. ArmsBlock globs at code.old.items code.new.items
        (pattern.now ∷ body.now ∷ more.now)) }
{
    let test = code.len();
    code.push(Instruction::Hole)?;
    let taken = code.len();
    emit_chosen(code, body, more.len(), nest)?;
    let over = code.len();
    code.push(Instruction::Hole)?;
    let it = test_of(*code.allocator(), globs, pattern, taken, code.len())?;
    fill(code, test, it);
    emit_rest(code, globs, more, nest)?;
    fill(code, over, Instruction::Jump(code.len()));
    Ok(taken)
}

/// Puts the code of patterns and their bodies, and says where the body of the first one stands.
#[cycle(emit_arms)]
fn emit_arms<A: Allocator + Copy, N: Nest<A>>(
    code: &mut Vec<Instruction<A>, A>,
    globs: bool,
    arms: &[Value<A>],
    nest: &N,
) -> Result<usize, NoMemory>
    ensures { 0 < length arms.now → AreWhole globs arms.now →
        IfOk result (λ at. ArmsBlock globs at code.old.items code.new.items arms.now) }
{
    let taken = code.len();
    let [pattern, body, more @ ..] = arms else {
        return Ok(taken);
    };
    if is_last_default(pattern.as_slice(), more) {
        emit_chosen(code, body, 0, nest)?;
        return Ok(taken);
    }
    if body.as_slice() == b"-".as_slice() {
        return Ok(emit_shared(code, globs, pattern, more, nest)?);
    }
    Ok(emit_arm(code, globs, pattern, body, more, nest)?)
}

/// Puts the code of the patterns that are left, with their bodies; where there are none, the string
/// is dropped, and the value is empty.
#[cycle(emit_arms)]
fn emit_rest<A: Allocator + Copy, N: Nest<A>>(
    code: &mut Vec<Instruction<A>, A>,
    globs: bool,
    arms: &[Value<A>],
    nest: &N,
) -> Result<(), NoMemory>
    ensures { AreWhole globs arms.now →
        OnOk result (RestBlock globs code.old.items code.new.items arms.now) }
{
    if arms.is_empty() {
        code.push(Instruction::Discard)?;
        code.push(Instruction::Text(Value::empty()))?;
        return Ok(());
    }
    let _ = emit_arms(code, globs, arms, nest)?;
    Ok(())
}

/// Puts what a `switch` does once its string is on top: its patterns with their bodies.
pub(crate) fn emit_switch<A: Allocator + Copy, N: Nest<A>>(
    code: &mut Vec<Instruction<A>, A>,
    own: Switch<A>,
    nest: &N,
) -> Result<(), NoMemory>
    ensures { AreArms own.arms.items own.after.items →
        AreWhole (are_globs own.options.flag) own.arms.items →
        OnOk result (SwitchBlock code.old.items code.new.items own.options own.after.items) }
{
    let Switch {
        options,
        after,
        arms,
    } = own;
    let place = code.len();
    code.push(Instruction::Hole)?;
    emit_rest(code, options.globs(), &arms, nest)?;
    fill(code, place, Instruction::Switch(options, after, code.len()));
    Ok(())
}

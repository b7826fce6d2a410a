//! Turns of `expect` under frames.

ghost use Rattle.std.specs.Prelude.{◌+◌, ◌≤◌, [], IfOk};
ghost use Rattle.state.specs.Prelude.{Status, FitsState};
ghost use Rattle.machine.specs.Frames.{Onward, left_of, load, stack, words_in};
ghost use Rattle.steps.specs.Goes.{Goes};
ghost use Rattle.machine.specs.Phases.{Leads};
ghost use Rattle.machine.specs.Waiting.{again_in, next_of};
ghost use Rattle.expects.specs.Expect as definition;
ghost use Rattle.expects.specs.Turn.{turns};
ghost use Rattle.expects.specs.View.{IsPlain, IsPlainOpening, course_of_opening, course_of_talk, course_of_turned, form_of, turn_of};
ghost use Rattle.state.specs.Leaf.{course_of};
ghost use Rattle.state.specs.Words.{words as meant_words};

use crate::frame::{Frame, put_above};
use crate::waits::Waits;
use acts::NoMemory;
use code::{CodedArgument, Entry, Made};
use expects::expect::{begin, by_words};
use expects::form::Form;
use expects::turn::{Begun, Opening, Talk, Turn, Turned};
use expects::turning::turn as turn_of_it;
use kept::{Kept, Parsed};
use state::leaf::{empty, gives};
use state::{Leaf, State};
use std::alloc::Allocator;
use tcltext::Value;

/// Begins `expect` or a command that lets branches stand, up to its first act or a script in it.
#[inline(never)]
pub fn wait<A: Allocator + Copy>(
    alloc: A,
    frames: &mut Vec<Frame<A>, A>,
    parsed: &mut Parsed<A>,
    state: &mut State<A>,
    form: Form,
    args: &[Value<A>],
    levels: u8,
) -> Result<Leaf<A, Waits<A>>, NoMemory>
    ensures leads { (last : Onward) (s : Status) → FitsState state.old s →
        IfOk result (λ leaf. Leads last leaf (stack frames.new) state.new
        (left_of last (definition.expect (form_of form) levels args.now s) (stack frames.old))) }
    ensures load { IfOk result (λ leaf. again_in leaf + load (stack frames.new) state.new
        ≤ 1 + load (stack frames.old) state.old) }
    ensures left { state.new.left ≤ state.old.left }
{
    match begin(alloc, &mut parsed.arguments, state, form, args, levels)? {
        Begun::Opens(opening) => open(alloc, frames, &mut parsed.scripts, state, opening),
        Begun::Gathers(words, form) => gather(alloc, frames, words, form, levels),
    }
}

/// Puts the words of an argument in braces on the stack, which take the name of their command.
fn gather<A: Allocator + Copy>(
    alloc: A,
    frames: &mut Vec<Frame<A>, A>,
    words: CodedArgument<A>,
    form: Form,
    levels: u8,
) -> Result<Leaf<A, Waits<A>>, NoMemory>
    ensures goes { (last : Onward) (s : Status) → IfOk result (λ leaf.
        Goes (left_of last (meant_words levels words [] s
        (definition.by_words (form_of form) levels)) (stack frames.old))
        (left_of last (course_of next_of leaf s) (stack frames.new))) }
    ensures words { IfOk result (λ leaf.
        again_in leaf + words_in (stack frames.new) ≤ 1 + words_in (stack frames.old)) }
{
    let name = Value::from_slice(alloc, form.name())?;
    Frame::Code(Entry::Argument(words), levels).push(frames)?;
    Ok(gives(name))
}

/// Continues with words that give branches, all of which are substituted.
pub fn say<A: Allocator + Copy>(
    alloc: A,
    frames: &mut Vec<Frame<A>, A>,
    kept: &mut Kept<A>,
    state: &mut State<A>,
    form: Form,
    words: &[Value<A>],
    levels: u8,
) -> Result<Leaf<A, Waits<A>>, NoMemory>
    ensures leads { (last : Onward) (s : Status) → FitsState state.old s →
        IfOk result (λ leaf. Leads last leaf (stack frames.new) state.new
        (left_of last (definition.by_words (form_of form) levels s words.now) (stack frames.old))) }
    ensures load { IfOk result (λ leaf. again_in leaf + load (stack frames.new) state.new
        ≤ load (stack frames.old) state.old) }
    ensures left { state.new.left ≤ state.old.left }
{
    let opening = by_words(alloc, state, form, words, levels)?;
    open(alloc, frames, kept, state, opening)
}

/// Begins the turn of an opening, if it has one, and else gives its outcome.
fn open<A: Allocator + Copy>(
    alloc: A,
    frames: &mut Vec<Frame<A>, A>,
    kept: &mut Kept<A>,
    state: &mut State<A>,
    opening: Opening<A>,
) -> Result<Leaf<A, Waits<A>>, NoMemory>
    ensures leads { (last : Onward) (s : Status) → FitsState state.old s →
        IfOk result (λ leaf. Leads last leaf (stack frames.new) state.new
        (left_of last (course_of_opening opening s) (stack frames.old))) }
    ensures load { IsPlainOpening opening →
        IfOk result (λ leaf. again_in leaf + load (stack frames.new) state.new
        ≤ load (stack frames.old) state.old) }
    ensures left { state.new.left ≤ state.old.left }
{
    match opening {
        Opening::Has(outcome) => Ok(Leaf::Has(outcome)),
        Opening::Turns(turn) => take_turn(alloc, frames, kept, state, turn),
    }
}

/// Takes a turn up to its wait or the body that it chooses.
#[inline(never)]
pub fn take_turn<A: Allocator + Copy>(
    alloc: A,
    frames: &mut Vec<Frame<A>, A>,
    kept: &mut Kept<A>,
    state: &mut State<A>,
    turn: Box<Turn<A>, A>,
) -> Result<Leaf<A, Waits<A>>, NoMemory>
    ensures leads { (last : Onward) (s : Status) → FitsState state.old s →
        IfOk result (λ leaf. Leads last leaf (stack frames.new) state.new
        (left_of last (turns (turn_of turn.value) turn.value.levels s) (stack frames.old))) }
    ensures load { IfOk result (λ leaf. again_in leaf + load (stack frames.new) state.new
        ≤ load (stack frames.old) state.old) }
    ensures left { state.new.left ≤ state.old.left }
{
    let turned = turn_of_it(alloc, kept, state, turn)?;
    settle(frames, turned)
}

/// Continues a turn with the answer to its act.
pub fn talk<A: Allocator + Copy>(
    alloc: A,
    frames: &mut Vec<Frame<A>, A>,
    kept: &mut Kept<A>,
    state: &mut State<A>,
    talk: Talk<A>,
) -> Result<Leaf<A, Waits<A>>, NoMemory>
    ensures { (last : Onward) (s : Status) → FitsState state.old s →
        IfOk result (λ leaf. Leads last leaf (stack frames.new) state.new
        (left_of last (course_of_talk talk s) (stack frames.old))) }
{
    match talk {
        Talk::Turned(turned) => settle(frames, turned),
        Talk::Turns(turn) => take_turn(alloc, frames, kept, state, turn),
    }
}

/// Puts the body of what was chosen on the stack, above its turn.
fn settle<A: Allocator>(
    frames: &mut Vec<Frame<A>, A>,
    turned: Turned<A>,
) -> Result<Leaf<A, Waits<A>>, NoMemory>
    ensures goes { (last : Onward) (s : Status) → IfOk result (λ leaf.
        Goes (left_of last (course_of_turned turned s) (stack frames.old))
        (left_of last (course_of next_of leaf s) (stack frames.new))) }
    ensures words { IsPlain turned → IfOk result (λ leaf.
        again_in leaf + words_in (stack frames.new) ≤ words_in (stack frames.old)) }
{
    match turned {
        Turned::Has(outcome) => Ok(Leaf::Has(outcome)),
        Turned::Runs(script, levels, turn) => {
            put_above(frames, Made::Script(script), levels, Frame::Turn(turn))?;
            Ok(empty())
        }
        Turned::Asks(act, waits) => Ok(Leaf::Asks(act, Waits::Turn(waits))),
    }
}

//! What begins on top of the frames: a command by its words, the branches of one by those of an
//! argument in braces, or a turn of `expect`.
//!
//! What waits for the answer to an act is wide. So what asks for no act is done up to its outcome,
//! and what may ask for acts is begun apart from it.

ghost use Rattle.std.specs.Prelude.{◌≡◌, ◌+◌, ◌≤◌, [], ◌∷◌, List, None, IfNone, IfOk, MatchOption, drop};
ghost use Rattle.state.specs.Prelude.{Status, FitsState, outcome_of};
ghost use Rattle.commands.specs.Commands as plain;
ghost use Rattle.nesting.specs.Commands as controls;
ghost use Rattle.nesting.specs.View as control;
ghost use Rattle.nesting.specs.View.{control_of};
ghost use Rattle.expects.specs.Expect.{by_name};
ghost use Rattle.machine.specs.Began.{HasBegun, asking_load, begun_load, course_of_asking};
ghost use Rattle.machine.specs.Frames.{Onward, left_of, load, onward_of, stack, words_in};
ghost use Rattle.steps.specs.Goes.{Goes};
ghost use Rattle.machine.specs.Phases.{Leads, course_of_next, more_of};
ghost use Rattle.machine.specs.Waiting.{again_in};
ghost use Rattle.machine.specs.declared.frame.Frame as framed;
ghost use Rattle.runs.specs.Commands.{command, other_command};
ghost use Rattle.state.specs.Budget.{again_of};
ghost use Rattle.nesting.specs.Nesting.{course_of as course_of_nesting};
ghost use Rattle.state.specs.declared.leaf.Leaf.TheVariants as leaf;
ghost use Rattle.state.specs.declared.state.State as stated;
ghost use Rattle.tclstate.specs.Pairs.{found};

use crate::frame::{Frame, put_above};
use crate::running::Running;
use crate::turns::{say, take_turn, wait};
use crate::waits::{Waits, plainly};
use crate::watch::Watch;
use acts::NoMemory;
use code::Entry;
use commands::{Acting, Began};
use expects::form::Form;
use expects::turn::Turn;
use kept::{Kept, Parsed};
use nesting::{self, Control, Held, Nesting};
use state::{Leaf, Outcome, State};
use std::alloc::Allocator;
use tcltext::Value;

/// What begins once frames are taken off.
#[derive(Drop)]
pub enum Next<A: Allocator> {
    /// A command by its words, and how many levels may still nest in it.
    Call(Vec<Value<A>, A>, u8),
    /// The branches of a command, by its name and the words of an argument in braces, and how many
    /// levels may still nest in it.
    Says(Vec<Value<A>, A>, u8),
    /// A turn of `expect`.
    Turn(Box<Turn<A>, A>),
    /// The script on the stack, which a command runs again after a tick.
    Again,
}

/// What may ask for acts, once all else about it is done.
#[derive(Drop)]
pub enum Asking<A: Allocator> {
    /// A command that asks for acts, by its words.
    Command(Acting, Vec<Value<A>, A>),
    /// A command that takes branches, by its words, and how many levels may still nest in it.
    Branching(Form, Vec<Value<A>, A>, u8),
    /// The name of such a command and words that give its branches, and how many levels may still
    /// nest in it.
    Branches(Form, Vec<Value<A>, A>, u8),
    /// A turn of `expect`.
    Turn(Box<Turn<A>, A>),
}

/// How far something has come that began.
#[derive(Drop)]
pub enum Begun<A: Allocator> {
    /// To an outcome, which the top frame takes.
    Has(Outcome<A>),
    /// To what may ask for acts.
    Asks(Asking<A>),
}

/// Begins what comes next, up to its first act or a script in it.
#[inline(always)]
pub(crate) fn start<A: Allocator + Copy, T: Watch<A, Running<A>, State<A>, Leaf<A, Waits<A>>>>(
    alloc: A,
    frames: &mut Vec<Frame<A>, A>,
    parsed: &mut Parsed<A>,
    state: &mut State<A>,
    next: Next<A>,
    watch: &mut T,
) -> Result<Leaf<A, Waits<A>>, NoMemory>
    ensures leads { (last : Onward) (s : Status) → FitsState state.old s →
        IfOk result (λ leaf. Leads last leaf (stack frames.new) state.new
        (left_of last (course_of_next next s) (stack frames.old))) }
    ensures load { IfOk result (λ leaf. again_in leaf + load (stack frames.new) state.new
        ≤ more_of next + load (stack frames.old) state.old) }
    ensures watched { T.told watch.old [] watch.new }
    ensures left { state.new.left ≤ state.old.left }
{
    match begin_next(alloc, frames, parsed, state, next, watch)? {
        Begun::Has(outcome) => Ok(Leaf::Has(outcome)),
        Begun::Asks(asking) => ask(alloc, frames, parsed, state, asking),
    }
}

/// Begins what comes next, up to an outcome or to what may ask for acts.
fn begin_next<A: Allocator + Copy, T: Watch<A, Running<A>, State<A>, Leaf<A, Waits<A>>>>(
    alloc: A,
    frames: &mut Vec<Frame<A>, A>,
    parsed: &mut Parsed<A>,
    state: &mut State<A>,
    next: Next<A>,
    watch: &mut T,
) -> Result<Begun<A>, NoMemory>
    ensures begins { (last : Onward) (s : Status) → FitsState state.old s →
        IfOk result (λ begun. HasBegun last begun (stack frames.new) state.new
        (left_of last (course_of_next next s) (stack frames.old))) }
    ensures load { IfOk result (λ begun. begun_load begun + load (stack frames.new) state.new
        ≤ more_of next + load (stack frames.old) state.old) }
    ensures watched { T.told watch.old [] watch.new }
    ensures left { state.new.left ≤ state.old.left }
{
    match next {
        Next::Call(words, levels) => call(alloc, frames, parsed, state, words, levels, watch),
        Next::Says(words, levels) => Ok(give(words, levels)),
        Next::Turn(turn) => Ok(Begun::Asks(Asking::Turn(turn))),
        Next::Again => Ok(Begun::Has(Ok(Value::empty()))),
    }
}

/// Gives the branches of a command by its name and words, up to where it may ask for acts.
fn give<A: Allocator>(words: Vec<Value<A>, A>, levels: u8) -> Begun<A>
    ensures begins { (frames : List (framed.Frame A)) (state : stated.State A) (last : Onward)
        (s : Status) → FitsState state s → HasBegun last result frames state
        (left_of last (by_name levels s words.items) frames) }
    ensures again { begun_load result ≡ 0 }
{
    let [name, ..] = words.as_slice() else {
        return Begun::Has(Ok(Value::empty()));
    };
    match Form::read(name.as_slice()) {
        Some(form) => Begun::Asks(Asking::Branches(form, words, levels)),
        None => Begun::Has(Ok(Value::empty())),
    }
}

/// Begins a command by its words.
fn call<A: Allocator + Copy, T: Watch<A, Running<A>, State<A>, Leaf<A, Waits<A>>>>(
    alloc: A,
    frames: &mut Vec<Frame<A>, A>,
    parsed: &mut Parsed<A>,
    state: &mut State<A>,
    words: Vec<Value<A>, A>,
    levels: u8,
    watch: &mut T,
) -> Result<Begun<A>, NoMemory>
    ensures begins { (last : Onward) (s : Status) → FitsState state.old s →
        IfOk result (λ begun. HasBegun last begun (stack frames.new) state.new
        (left_of last (command levels s words.items) (stack frames.old))) }
    ensures load { IfOk result (λ begun. begun_load begun + load (stack frames.new) state.new
        ≤ 1 + load (stack frames.old) state.old) }
    ensures watched { T.told watch.old [] watch.new }
    ensures left { state.new.left ≤ state.old.left }
{
    if words.is_empty() {
        return Ok(Begun::Has(Ok(Value::empty())));
    }
    watch.begins(words.as_slice());
    match call_control(alloc, frames, parsed, state, words.as_slice(), levels)? {
        Some(outcome) => Ok(Begun::Has(outcome)),
        None => call_other(alloc, state, words, levels),
    }
}

/// Begins a procedure, or a command that runs scripts, by its words, up to a script in it; `None`
/// where they name neither, and nothing is done.
fn call_control<A: Allocator + Copy>(
    alloc: A,
    frames: &mut Vec<Frame<A>, A>,
    parsed: &mut Parsed<A>,
    state: &mut State<A>,
    words: &[Value<A>],
    levels: u8,
) -> Result<Option<Outcome<A>>, NoMemory>
    ensures leads { (last : Onward) (s : Status) → FitsState state.old s →
        IfOk result (λ ran. MatchOption ran
        ((command levels s words.now ≡ other_command levels s words.now)
        × FitsState state.new s × (stack frames.new ≡ stack frames.old))
        (λ outcome. Leads last (leaf.Has outcome) (stack frames.new) state.new
        (left_of last (command levels s words.now) (stack frames.old)))) }
    ensures load { IfOk result (λ ran. MatchOption ran (state.new.left ≤ state.old.left)
        (λ outcome. again_of (outcome_of outcome) + load (stack frames.new) state.new
        ≤ 1 + load (stack frames.old) state.old)) }
    ensures kept { IfOk result (λ ran. IfNone ran (stack frames.new ≡ stack frames.old)) }
    ensures left { state.new.left ≤ state.old.left }
{
    let [name, args @ ..] = words else {
        return Ok(None);
    };
    let name = name.as_slice();
    let kept = &mut parsed.scripts;
    if let Some(outcome) = call_procedure(alloc, frames, kept, state, name, args, levels)? {
        return Ok(Some(outcome));
    }
    match Control::read(name) {
        Some(control) => {
            let outcome = begin_control(alloc, frames, parsed, state, control, args, levels)?;
            Ok(Some(outcome))
        }
        None => Ok(None),
    }
}

/// Calls the procedure of a name, up to its body; `None` where no procedure has the name, and
/// nothing is done.
fn call_procedure<A: Allocator + Copy>(
    alloc: A,
    frames: &mut Vec<Frame<A>, A>,
    kept: &mut Kept<A>,
    state: &mut State<A>,
    name: &[u8],
    args: &[Value<A>],
    levels: u8,
) -> Result<Option<Outcome<A>>, NoMemory>
    ensures leads { (last : Onward) (s : Status) → FitsState state.old s →
        IfOk result (λ called. MatchOption called
        ((found s.procedures name.now ≡ None) × FitsState state.new s
        × (stack frames.new ≡ stack frames.old))
        (λ outcome. Leads last (leaf.Has outcome) (stack frames.new) state.new
        (left_of last (command levels s (name.now ∷ args.now)) (stack frames.old)))) }
    ensures load { IfOk result (λ called. MatchOption called (state.new.left ≤ state.old.left)
        (λ outcome. again_of (outcome_of outcome) + load (stack frames.new) state.new
        ≤ 1 + load (stack frames.old) state.old)) }
    ensures kept { IfOk result (λ called. IfNone called (stack frames.new ≡ stack frames.old)) }
    ensures left { state.new.left ≤ state.old.left }
{
    match state.procs.get(name) {
        Some(_) => enter_procedure(alloc, frames, kept, state, name, args, levels),
        None => Ok(None),
    }
}

/// The same, without a look beforehand whether a procedure has the name.
#[inline(never)]
fn enter_procedure<A: Allocator + Copy>(
    alloc: A,
    frames: &mut Vec<Frame<A>, A>,
    kept: &mut Kept<A>,
    state: &mut State<A>,
    name: &[u8],
    args: &[Value<A>],
    levels: u8,
) -> Result<Option<Outcome<A>>, NoMemory>
    ensures leads { (last : Onward) (s : Status) → FitsState state.old s →
        IfOk result (λ called. MatchOption called
        ((found s.procedures name.now ≡ None) × FitsState state.new s
        × (stack frames.new ≡ stack frames.old))
        (λ outcome. Leads last (leaf.Has outcome) (stack frames.new) state.new
        (left_of last (command levels s (name.now ∷ args.now)) (stack frames.old)))) }
    ensures load { IfOk result (λ called. MatchOption called (state.new.left ≤ state.old.left)
        (λ outcome. again_of (outcome_of outcome) + load (stack frames.new) state.new
        ≤ 1 + load (stack frames.old) state.old)) }
    ensures kept { IfOk result (λ called. IfNone called (stack frames.new ≡ stack frames.old)) }
    ensures left { state.new.left ≤ state.old.left }
{
    match nesting::call(alloc, kept, state, name, args, levels)? {
        Some(nesting) => Ok(Some(hold(frames, nesting)?)),
        None => Ok(None),
    }
}

/// Begins a command that runs scripts, up to a script in it.
#[inline(never)]
fn begin_control<A: Allocator + Copy>(
    alloc: A,
    frames: &mut Vec<Frame<A>, A>,
    parsed: &mut Parsed<A>,
    state: &mut State<A>,
    control: Control,
    args: &[Value<A>],
    levels: u8,
) -> Result<Outcome<A>, NoMemory>
    ensures leads { (last : Onward) (s : Status) → FitsState state.old s → IfOk result (λ outcome.
        Leads last (leaf.Has outcome) (stack frames.new) state.new
        (left_of last (controls.does (control_of control) levels args.now s)
        (stack frames.old))) }
    ensures load { IfOk result (λ outcome.
        again_of (outcome_of outcome) + load (stack frames.new) state.new
        ≤ 1 + load (stack frames.old) state.old) }
    ensures left { state.new.left ≤ state.old.left }
{
    let begun = nesting::begin(alloc, parsed, state, control, args, levels)?;
    put_begun(frames, begun)
}

/// Begins a command that takes branches, or one that runs no script, up to an outcome or to what
/// may ask for acts.
fn call_other<A: Allocator + Copy>(
    alloc: A,
    state: &mut State<A>,
    words: Vec<Value<A>, A>,
    levels: u8,
) -> Result<Begun<A>, NoMemory>
    ensures begins { (frames : List (framed.Frame A)) (last : Onward) (s : Status) →
        FitsState state.old s → IfOk result (λ begun. HasBegun last begun frames state.new
        (left_of last (other_command levels s words.items) frames)) }
    ensures again { IfOk result (λ begun. begun_load begun ≤ 1) }
    ensures left { state.new.left ≤ state.old.left }
{
    let [name, ..] = words.as_slice() else {
        return Ok(Begun::Has(Ok(Value::empty())));
    };
    match Form::read(name.as_slice()) {
        Some(form) => Ok(Begun::Asks(Asking::Branching(form, words, levels))),
        None => call_plain(alloc, state, words),
    }
}

/// Begins a command that runs no script and takes no branches, up to an outcome or to what may ask
/// for acts.
fn call_plain<A: Allocator + Copy>(
    alloc: A,
    state: &mut State<A>,
    words: Vec<Value<A>, A>,
) -> Result<Begun<A>, NoMemory>
    ensures begins { (frames : List (framed.Frame A)) (last : Onward) (s : Status) →
        FitsState state.old s → IfOk result (λ begun. HasBegun last begun frames state.new
        (left_of last (plain.command s words.items) frames)) }
    ensures again { IfOk result (λ begun. begun_load begun ≤ 1) }
    ensures left { state.new.left ≤ state.old.left }
{
    match commands::begin(alloc, state, words.as_slice())? {
        Began::Has(outcome) => Ok(Begun::Has(outcome)),
        Began::Asks(acting) => Ok(Begun::Asks(Asking::Command(acting, words))),
    }
}

/// Goes on with what may ask for acts, up to its first act or to a script in it.
#[inline(never)]
fn ask<A: Allocator + Copy>(
    alloc: A,
    frames: &mut Vec<Frame<A>, A>,
    parsed: &mut Parsed<A>,
    state: &mut State<A>,
    asking: Asking<A>,
) -> Result<Leaf<A, Waits<A>>, NoMemory>
    ensures leads { (last : Onward) (s : Status) → FitsState state.old s →
        IfOk result (λ leaf. Leads last leaf (stack frames.new) state.new
        (left_of last (course_of_asking asking s) (stack frames.old))) }
    ensures load { IfOk result (λ leaf. again_in leaf + load (stack frames.new) state.new
        ≤ asking_load asking + load (stack frames.old) state.old) }
    ensures left { state.new.left ≤ state.old.left }
{
    match asking {
        Asking::Command(acting, words) => {
            let leaf = commands::ask(alloc, state, acting, behind(words.as_slice()))?;
            Ok(plainly(leaf))
        }
        Asking::Branching(form, words, levels) => {
            wait(
                alloc,
                frames,
                parsed,
                state,
                form,
                behind(words.as_slice()),
                levels,
            )
        }
        Asking::Branches(form, words, levels) => {
            let kept = &mut parsed.scripts;
            say(
                alloc,
                frames,
                kept,
                state,
                form,
                behind(words.as_slice()),
                levels,
            )
        }
        Asking::Turn(turn) => take_turn(alloc, frames, &mut parsed.scripts, state, turn),
    }
}

/// The words after the first one.
fn behind<A: Allocator>(words: &[Value<A>]) -> &[Value<A>]
    ensures { result.now ≡ drop 1 words.now }
{
    match words {
        [_, behind @ ..] => behind,
        [] => words,
    }
}

/// Puts what a command runs on the stack, above what the command holds.
fn hold<A: Allocator>(
    frames: &mut Vec<Frame<A>, A>,
    nesting: Nesting<A, Held<A>>,
) -> Result<Outcome<A>, NoMemory>
    ensures goes { (last : Onward) (s : Status) → IfOk result (λ outcome.
        Goes (left_of last (course_of_nesting control.next_of nesting s) (stack frames.old))
        (onward_of last (stack frames.new) s (outcome_of outcome))) }
    ensures words { IfOk result (λ outcome.
        again_of (outcome_of outcome) + words_in (stack frames.new)
        ≤ 1 + words_in (stack frames.old)) }
{
    match nesting {
        Nesting::Has(outcome) => Ok(outcome),
        Nesting::Runs(it, levels, held) => {
            put_above(frames, it, levels, Frame::Held(held))?;
            Ok(Ok(Value::empty()))
        }
    }
}

/// Puts what a command that runs scripts has begun on the stack.
fn put_begun<A: Allocator>(
    frames: &mut Vec<Frame<A>, A>,
    begun: nesting::Begun<A>,
) -> Result<Outcome<A>, NoMemory>
    ensures goes { (last : Onward) (s : Status) → IfOk result (λ outcome.
        Goes (left_of last (control.course_of_begun begun s) (stack frames.old))
        (onward_of last (stack frames.new) s (outcome_of outcome))) }
    ensures words { IfOk result (λ outcome.
        again_of (outcome_of outcome) + words_in (stack frames.new)
        ≤ 1 + words_in (stack frames.old)) }
{
    match begun {
        nesting::Begun::Has(outcome) => Ok(outcome),
        nesting::Begun::Runs(it, levels) => {
            Frame::Code(Entry::Made(it), levels).push(frames)?;
            Ok(Ok(Value::empty()))
        }
        nesting::Begun::Does(doing, levels) => {
            Frame::Code(Entry::Does(doing), levels).push(frames)?;
            Ok(Ok(Value::empty()))
        }
        nesting::Begun::Holds(it, levels, held) => {
            put_above(frames, it, levels, Frame::Held(held))?;
            Ok(Ok(Value::empty()))
        }
    }
}

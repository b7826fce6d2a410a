//! The words of the three commands (expect(1), expect, expect_before and expect_after).

ghost use Rattle.std.specs.Prelude.{◌≡◌, ◌≤◌, ℕ, IfOk, MatchOption};
ghost use Rattle.state.specs.Prelude.{Raises, Status, FitsState};
ghost use Rattle.acts.specs.Flaw as flaw;
ghost use Rattle.readings.specs.Misreads as misread;
ghost use Rattle.expects.specs.Expect as definition;
ghost use Rattle.expects.specs.Parts.{Tells};
ghost use Rattle.expects.specs.View.{Comes, IsPlainBegun, IsPlainOpening, course_of_begun, course_of_opening, form_of};
ghost use Rattle.expects.specs.Words.{Form as Meant};

use crate::form::Form;
use crate::resuming::shut;
use crate::turn::{Begun, Opening, Turn};
use acts::raise::{bad_flag, not_open};
use acts::{Fault, Id, NoMemory, Raise};
use code::is_braced;
use dialog::{BranchError, Branches, Effective, Trigger};
use kept::{Argument, Arguments};
use kinds::failed;
use state::State;
use state::faults::no_script;
use state::outcome::raised;
use state::variables::{SPAWN_ID, consulted};
use std::alloc::Allocator;
use tcltext::Value;

/// Begins one of the three commands with its words; `levels` is how many levels may still be nested
/// in it.
///
/// # Errors
/// `NoMemory`.
pub fn begin<A: Allocator + Copy>(
    alloc: A,
    arguments: &mut Arguments<A>,
    state: &mut State<A>,
    form: Form,
    args: &[Value<A>],
    levels: u8,
) -> Result<Begun<A>, NoMemory>
    ensures comes { (s : Status) → FitsState state.old s → IfOk result (λ begun.
        Comes (course_of_begun levels) begun state.new
        (definition.expect (form_of form) levels args.now s)) }
    ensures left { state.new.left ≤ state.old.left }
    ensures plain { IfOk result (λ begun. IsPlainBegun begun) }
{
    match braced(args) {
        Some(text) => by_argument(alloc, arguments, state, form, text, levels),
        None => Ok(Begun::Opens(by_words(alloc, state, form, args, levels)?)),
    }
}

/// The single argument of a command, where it is one in braces.
fn braced<A: Allocator>(args: &[Value<A>]) -> Option<&[u8]>
    ensures { (form : Meant) (levels : ℕ) (s : Status) →
        let course = definition.expect form levels args.now s in MatchOption result
        (course ≡ definition.by_words form levels s args.now)
        (λ text. course ≡ definition.by_argument form levels text.now s) }
{
    match args {
        [text] if is_braced(text.as_slice()) => Some(text.as_slice()),
        _ => None,
    }
}

/// Reads the words of an argument in braces, and continues the command where they are texts as they
/// stand.
fn by_argument<A: Allocator + Copy>(
    alloc: A,
    arguments: &mut Arguments<A>,
    state: &mut State<A>,
    form: Form,
    text: &[u8],
    levels: u8,
) -> Result<Begun<A>, NoMemory>
    ensures comes { (s : Status) → FitsState state.old s → IfOk result (λ begun.
        Comes (course_of_begun levels) begun state.new
        (definition.by_argument (form_of form) levels text.now s)) }
    ensures left { state.new.left ≤ state.old.left }
    ensures plain { IfOk result (λ begun. IsPlainBegun begun) }
{
    match arguments.read(text)? {
        Argument::Texts(words) => Ok(Begun::Opens(by_words(alloc, state, form, &words, levels)?)),
        Argument::Words(words) => Ok(Begun::Gathers(words, form)),
        Argument::Faulty(fault) => {
            Ok(Begun::Opens(Opening::Has(raised(alloc, no_script(fault))?)))
        }
    }
}

/// Continues a command once all its words are there: the branches that they say stand from now on,
/// or are those of the first turn.
///
/// # Errors
/// `NoMemory`.
pub fn by_words<A: Allocator + Copy>(
    alloc: A,
    state: &mut State<A>,
    form: Form,
    words: &[Value<A>],
    levels: u8,
) -> Result<Opening<A>, NoMemory>
    ensures comes { (s : Status) → FitsState state.old s → IfOk result (λ opening.
        Comes course_of_opening opening state.new
        (definition.by_words (form_of form) levels s words.now)) }
    ensures left { state.new.left ≤ state.old.left }
    ensures plain { IfOk result (λ opening. IsPlainOpening opening) }
{
    let current = id_in_force(state);
    let table = &state.ids.table;
    match state
        .branches
        .read(alloc, words, current, form.stands(), table)
    {
        Ok(branches) => on_branches(alloc, state, form, &branches, levels),
        Err(error) => Ok(Opening::Has(failed(alloc, told(alloc, state, error))?)),
    }
}

/// The open id that the variable `spawn_id` names, if there is one.
fn id_in_force<A: Allocator + Copy>(state: &State<A>) -> Option<Id>
    ensures { (s : Status) → FitsState state.now s →
        result ≡ definition.open_by (definition.id_named s) s }
{
    match consulted(state, SPAWN_ID) {
        Some(text) => state.ids.table.named(text.as_slice()),
        None => None,
    }
}

/// Begins the first turn of `expect`; the branches of the other two commands stand from now on.
fn on_branches<A: Allocator + Copy>(
    alloc: A,
    state: &mut State<A>,
    form: Form,
    branches: &Branches<A>,
    levels: u8,
) -> Result<Opening<A>, NoMemory>
    ensures comes { (s : Status) → FitsState state.old s → IfOk result (λ opening.
        Comes course_of_opening opening state.new
        (definition.on_branches (form_of form) branches.now levels s)) }
    ensures left { state.new.left ≤ state.old.left }
    ensures plain { IfOk result (λ opening. IsPlainOpening opening) }
{
    match form {
        Form::Waits => {
            let effective = Effective::new(alloc, &state.ids.standing, branches)?;
            let turn = Turn {
                effective,
                rows: Vec::new(alloc),
                seconds: branches.timeout(),
                trigger: Trigger::Entry,
                clock: None,
                levels,
            };
            Ok(Opening::Turns(Box::new(alloc, turn)?))
        }
        Form::Stands(side) => {
            state.ids.standing.put(alloc, side, branches)?;
            Ok(Opening::Has(Ok(Value::empty())))
        }
    }
}

/// The script's error where words give no branches.
fn told<A: Allocator + Copy>(alloc: A, state: &State<A>, error: BranchError<'_>) -> Raise<A>
    ensures { (s : Status) → FitsState state.now s →
        Tells (misread.flaw_of error.entry) result s }
{
    match error {
        BranchError::NotIds(text) => not_open(alloc, text),
        BranchError::NotOpen(id) => shut(alloc, Some(id)),
        BranchError::NoneInForce => not_in_force(alloc, state),
        BranchError::NoPattern => Raise::Fault(Fault::MissingWord),
        BranchError::RegexNotHere => Raise::Fault(Fault::RegexNotHere),
        BranchError::BadFlag(word) => bad_flag(alloc, word),
        BranchError::TooLong => Raise::Fault(Fault::PatternTooLong),
        BranchError::NoMemory(refusal) => refusal.into(),
    }
}

/// The error that what the variable `spawn_id` holds names no open id.
fn not_in_force<A: Allocator + Copy>(alloc: A, state: &State<A>) -> Raise<A>
    ensures { (s : Status) → FitsState state.now s →
        Raises (flaw.NotOpen (definition.id_named s)) result }
{
    match consulted(state, SPAWN_ID) {
        Some(text) => not_open(alloc, text.as_slice()),
        None => Raise::Fault(Fault::NotOpen(None)),
    }
}

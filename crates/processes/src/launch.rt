//! How a program is started, after its echo (expect(1), spawn).

ghost use Rattle.std.specs.Prelude.{◌≡◌, ℕ, IfOk};
ghost use Rattle.state.specs.Prelude.{deed_of, reply_of, Raises, Status, FitsState};
ghost use Rattle.acts.specs.Flaw as flaw;
ghost use Rattle.kinds.specs.Answers.{Goes, GoesOn, Talks};
ghost use Rattle.processes.specs.Launch as definition;
ghost use Rattle.processes.specs.Rebinds.{Rebinds};
ghost use Rattle.processes.specs.Spawn.{next_of};
ghost use Rattle.processes.specs.View.{words_of, words_spawned};

use crate::numbers::{next_id, open_next, skip_next};
use crate::spawn::Waits;
use acts::decimal::push_decimal;
use acts::{Act, Answer, Fault, Id, NoMemory, Raise};
use dialog::Kind;
use kinds::ids;
use kinds::variables::put;
use state::leaf::gives;
use state::variables::SPAWN_ID;
use state::{Leaf, State};
use std::alloc::Allocator;
use tcltext::Value;

/// Begins to start the program of these words under the next number; the echo, if there is to be
/// one, comes first.
///
/// # Errors
/// No id is left; or memory is refused.
pub(crate) fn launch<A: Allocator + Copy>(
    alloc: A,
    state: &State<A>,
    echo: bool,
    words: &[Value<A>],
) -> Result<Leaf<A, Waits<A>>, Raise<A>>
    ensures { (s : Status) → FitsState state.now s →
        Talks next_of (definition.launches echo words.now s) s result state.now }
{
    let id = next_id(state)?;
    let copies = copies_of(alloc, words)?;
    Ok(show(alloc, state, echo, id, copies)?)
}

/// Writes the echo, where there is one, to standard output if what arrives is written there, then
/// to the log, and then starts the program.
fn show<A: Allocator + Copy>(
    alloc: A,
    state: &State<A>,
    echo: bool,
    id: Id,
    words: Vec<Vec<u8, A>, A>,
) -> Result<Leaf<A, Waits<A>>, NoMemory>
    ensures { (s : Status) → FitsState state.now s → IfOk result (λ leaf. Goes next_of
        (definition.echoes echo id (words_of words.items) s) s leaf state.now) }
{
    if !echo {
        return Ok(Leaf::Asks(Act::Spawn(id, words), Waits::Started));
    }
    let (is_shown, _) = state.log.places();
    if !is_shown {
        return Ok(note(alloc, state, id, words)?);
    }
    let line = echo_of(alloc, &words)?;
    Ok(Leaf::Asks(Act::Out(line), Waits::Shown(id, words)))
}

/// Writes the echo to the log if what arrives is written there, and then starts the program.
#[tactic(auto, using(crate::proofs::Spare::after_write))]
pub(crate) fn note<A: Allocator + Copy>(
    alloc: A,
    state: &State<A>,
    id: Id,
    words: Vec<Vec<u8, A>, A>,
) -> Result<Leaf<A, Waits<A>>, NoMemory>
    ensures { (n : ℕ) (s : Status) → FitsState state.now s → IfOk result (λ leaf. Goes next_of
        (definition.notes {n = n} id (words_of words.items) s) s leaf state.now) }
{
    let (_, is_noted) = state.log.places();
    if !is_noted {
        return Ok(Leaf::Asks(Act::Spawn(id, words), Waits::Started));
    }
    let line = echo_of(alloc, &words)?;
    Ok(Leaf::Asks(Act::Log(line), Waits::Noted(id, words)))
}

/// Continues after the start of a program: opens its id and puts it in force, unless the program
/// could not be started.
///
/// # Errors
/// The program could not be started, no id is left, or the variable `spawn_id` can't be written; or
/// memory is refused.
pub(crate) fn started<A: Allocator + Copy>(
    alloc: A,
    state: &mut State<A>,
    act: &Act<A>,
    answer: &Answer<A>,
) -> Result<Leaf<A, Waits<A>>, Raise<A>>
    ensures shows { (s : Status) → FitsState state.old s → GoesOn next_of
        (definition.started {n = 2} (words_spawned (deed_of act.now)) s (reply_of answer.now))
        s result state.new }
    ensures left { state.new.left ≡ state.old.left }
{
    match answer {
        Answer::Started(pid) => run(alloc, state, *pid),
        _ => {
            skip_next(state);
            Err(cannot_execute(alloc, name_of(act)))
        }
    }
}

/// Opens the id of a process, puts it in force, and gives the number of the process.
#[tactic(auto, using(crate::proofs::Opened::running_goes_on))]
fn run<A: Allocator + Copy>(
    alloc: A,
    state: &mut State<A>,
    pid: u64,
) -> Result<Leaf<A, Waits<A>>, Raise<A>>
    ensures shows { (s : Status) → FitsState state.old s →
        GoesOn next_of (definition.running {n = 2} pid s) s result state.new }
    ensures left { state.new.left ≡ state.old.left }
{
    let id = open_next(alloc, state, Kind::Process(pid))?;
    enter_process(alloc, state, id, pid)
}

/// Puts the id of a process in force, and gives the number of the process.
fn enter_process<A: Allocator + Copy>(
    alloc: A,
    state: &mut State<A>,
    id: Id,
    pid: u64,
) -> Result<Leaf<A, Waits<A>>, Raise<A>>
    ensures shows { (s : Status) → FitsState state.old s →
        GoesOn next_of (definition.enters_process {n = 2} pid id s) s result state.new }
    ensures left { state.new.left ≡ state.old.left }
{
    let mut digits = Vec::new(alloc);
    push_decimal(&mut digits, pid)?;
    let number = Value::new(alloc, digits)?;
    enter(alloc, state, id)?;
    Ok(gives(number))
}

/// Puts an open id in force.
///
/// # Errors
/// The variable `spawn_id` can't be written, and nothing changes; or memory is refused.
pub(crate) fn enter<A: Allocator + Copy>(
    alloc: A,
    state: &mut State<A>,
    id: Id,
) -> Result<(), Raise<A>>
    ensures binds { (s : Status) → FitsState state.old s →
        Rebinds (definition.in_force id s.scopes) s result state.new }
    ensures left { state.new.left ≡ state.old.left }
{
    let name = ids::name_of(alloc, id)?;
    Ok(put(alloc, &mut state.scopes, SPAWN_ID, None, name)?)
}

/// The command as it is echoed.
fn echo_of<A: Allocator + Copy>(alloc: A, words: &[Vec<u8, A>]) -> Result<Vec<u8, A>, NoMemory>
    ensures { IfOk result (λ line. line.items ≡ definition.echo_of (words_of words.now)) }
{
    let mut line = Vec::from_slice(alloc, b"spawn")?;
    for word in words {
        line.push(b' ')?;
        line.extend_from_slice(word)?;
    }
    line.push(b'\n')?;
    Ok(line)
}

/// A copy of each word.
fn copies_of<A: Allocator + Copy>(
    alloc: A,
    words: &[Value<A>],
) -> Result<Vec<Vec<u8, A>, A>, NoMemory>
    ensures { IfOk result (λ copies. words_of copies.items ≡ words.now) }
{
    let mut copies = Vec::with_capacity(alloc, words.len())?;
    for word in words {
        copies.push(Vec::from_slice(alloc, word.as_slice())?)?;
    }
    Ok(copies)
}

/// The error of a program that could not be started.
fn cannot_execute<A: Allocator + Copy>(alloc: A, name: &[u8]) -> Raise<A>
    ensures { Raises (flaw.CannotExecute name.now) result }
{
    match Vec::from_slice(alloc, name) {
        Ok(name) => Raise::Fault(Fault::CannotExecute(name)),
        Err(refusal) => refusal.into(),
    }
}

/// The name of the program that an act starts, which is its first word.
fn name_of<A: Allocator>(act: &Act<A>) -> &[u8]
    ensures { result.now ≡ definition.name_of (words_spawned (deed_of act.now)) }
{
    match act {
        Act::Spawn(_, words) => first_of(words),
        _ => b"".as_slice(),
    }
}

/// The first of some words, or the empty one.
fn first_of<A: Allocator>(words: &[Vec<u8, A>]) -> &[u8]
    ensures { result.now ≡ definition.name_of (words_of words.now) }
{
    match words {
        [first, ..] => first.as_slice(),
        [] => b"".as_slice(),
    }
}

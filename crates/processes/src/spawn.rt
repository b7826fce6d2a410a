//! `spawn ?-noecho? word ..`, `spawn ?-noecho? -open channel` (expect(1), spawn).

ghost use Rattle.std.specs.Prelude.{◌≡◌, ◌≤◌};
ghost use Rattle.state.specs.Prelude.{deed_of, reply_of, Answers, Status, FitsState};
ghost use Rattle.kinds.specs.Answers.{GoesOn, Talks};
ghost use Rattle.processes.specs.Spawn as definition;

use crate::launch::{enter, launch, note, started};
use acts::raise::wrong_args;
use acts::{Act, Answer, Id, Raise};
use kinds::ids::connection_id;
use kinds::usage::{Usage, after_flag};
use state::arguments::is_flag;
use state::leaf::{gives, stops};
use state::{Leaf, State, Stop};
use std::alloc::Allocator;
use tcltext::Value;

const USAGE: Usage<'static> = Usage {
    command: b"spawn",
    flags: &[b"-noecho"],
};

/// What waits for the answer to an act.
#[derive(Debug, Drop)]
pub enum Waits<A: Allocator> {
    /// The echo is written to standard output. Next it goes to the log, if what arrives is written
    /// there, and a program of these words is started under this id.
    Shown(Id, Vec<Vec<u8, A>, A>),
    /// The echo is written to the log. Next a program of these words is started under this id.
    Noted(Id, Vec<Vec<u8, A>, A>),
    /// The program is started, and its id is opened.
    Started,
}

/// Begins to start a program, and echoes the command first unless `-noecho` stands before it, or
/// puts the id of an open channel in force.
///
/// # Errors
/// No word stands after the flags, or a word that looks like a flag and is none; the channel is not
/// open, or a word stands after it; no id is left; the variable `spawn_id` can't be written; or
/// memory is refused.
pub fn begin<A: Allocator + Copy>(
    alloc: A,
    state: &mut State<A>,
    args: &[Value<A>],
) -> Result<Leaf<A, Waits<A>>, Raise<A>>
    ensures shows { (s : Status) → FitsState state.old s →
        Talks definition.next_of (definition.spawn args.now s) s result state.new }
    ensures left { state.new.left ≤ state.old.left }
{
    let (quiet, words) = after_flag(args, b"-noecho");
    spawn(alloc, state, !quiet, words)
}

/// Continues the command with the answer to a write of the echo or to the start of the program.
///
/// # Errors
/// The program could not be started, no id is left, or the variable `spawn_id` can't be written; or
/// memory is refused.
pub fn answered<A: Allocator + Copy>(
    alloc: A,
    state: &mut State<A>,
    act: Act<A>,
    waits: Waits<A>,
    answer: Answer<A>,
) -> Result<Leaf<A, Waits<A>>, Raise<A>>
    ensures shows { (s : Status) → FitsState state.old s → GoesOn definition.next_of
        (definition.follows waits (deed_of act) s (reply_of answer)) s result state.new }
    ensures left { state.new.left ≤ state.old.left }
{
    match (waits, &answer) {
        (Waits::Started, _) => started(alloc, state, &act, &answer),
        (_, Answer::Failed(_)) => Ok(stops(Stop::WriterFailed)),
        (Waits::Shown(id, words), _) => Ok(note(alloc, state, id, words)?),
        (Waits::Noted(id, words), _) => Ok(Leaf::Asks(Act::Spawn(id, words), Waits::Started)),
    }
}

/// Whether a word is the flag after which an open channel stands.
fn is_open_flag(word: &[u8]) -> bool
    ensures { result ≡ definition.is_open_flag word.now }
{
    word == b"-open".as_slice()
}

/// Puts the id of a channel in force, or starts a program, by the words after the first flag.
fn spawn<A: Allocator + Copy>(
    alloc: A,
    state: &mut State<A>,
    echo: bool,
    words: &[Value<A>],
) -> Result<Leaf<A, Waits<A>>, Raise<A>>
    ensures shows { (s : Status) → FitsState state.old s →
        Talks definition.next_of (definition.spawns echo words.now s) s result state.new }
    ensures left { state.new.left ≡ state.old.left }
{
    let [first, more @ ..] = words else {
        return Err(wrong_args(alloc, b"spawn"));
    };
    if is_open_flag(first.as_slice()) {
        return enter_channel(alloc, state, more);
    }
    if is_flag(first.as_slice()) {
        return Err(USAGE.misplaced(alloc, first.as_slice()));
    }
    launch(alloc, state, echo, words)
}

/// Puts the id of an open channel in force, and gives 0, as no process is started.
fn enter_channel<A: Allocator + Copy>(
    alloc: A,
    state: &mut State<A>,
    words: &[Value<A>],
) -> Result<Leaf<A, Waits<A>>, Raise<A>>
    ensures shows { (s : Status) → FitsState state.old s →
        Talks definition.next_of (definition.by_channel words.now s) s result state.new }
    ensures left { state.new.left ≡ state.old.left }
{
    let id = channel_said(alloc, state, words)?;
    let zero = Value::new(alloc, Vec::from_slice(alloc, b"0")?)?;
    enter(alloc, state, id)?;
    Ok(gives(zero))
}

/// The open connection of the one word after the flag.
fn channel_said<A: Allocator + Copy>(
    alloc: A,
    state: &State<A>,
    words: &[Value<A>],
) -> Result<Id, Raise<A>>
    ensures { (s : Status) → FitsState state.now s →
        Answers (λ id. id) (definition.channel_said words.now s) result }
{
    match words {
        [channel] => connection_id(alloc, state, channel.as_slice()),
        _ => Err(wrong_args(alloc, b"spawn")),
    }
}

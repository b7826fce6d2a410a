//! `log_file ?-a? ?-noappend? ?name?` (expect(1), log_file).

ghost use Rattle.std.specs.Prelude.{◌≡◌, ◌≤◌, ℕ, IfOk, option_copied, option_map};
ghost use Rattle.state.specs.Prelude.{deed_of, reply_of, Answers, Status, FitsState};
ghost use Rattle.kinds.specs.Answers.{Goes, GoesOn, Talks};
ghost use Rattle.output.specs.LogFile as definition;
ghost use Rattle.output.specs.Request.{request_of};
ghost use Rattle.state.specs.declared.state.State.{State as Kept};

use crate::settings::{end_log, start_log};
use acts::{Act, Answer, Fault, LogMode, NoMemory, Raise};
use kinds::usage::{Usage, after_flag};
use state::leaf::empty;
use state::{Leaf, State};
use std::alloc::Allocator;
use tcltext::Value;

const USAGE: Usage<'static> = Usage {
    command: b"log_file",
    flags: &[b"-a", b"-noappend"],
};

/// What the words of `log_file` ask for.
#[derive(Debug, Drop)]
pub struct Request<A: Allocator> {
    /// Whether the log gets what arrives whatever `log_user` is.
    pub all: bool,
    /// What becomes of the bytes that the file already has.
    pub mode: LogMode,
    /// The name of the file, where one is to be opened.
    pub name: Option<Vec<u8, A>>,
}

/// The state of a command that waits for the answer to an act.
#[derive(Debug, Drop)]
pub enum Waits<A: Allocator> {
    /// The log is being closed; then the one that is asked for, if any, is opened.
    Closed(Request<A>),
    /// The log is being opened; then it gets all that arrives, or only what is shown.
    Opened(bool),
}

/// Begins to close the log and to open the one that is named, if one is.
///
/// # Errors
/// The words are too many, or one of them is no flag; or memory is refused.
pub fn begin<A: Allocator + Copy>(
    alloc: A,
    state: &State<A>,
    args: &[Value<A>],
) -> Result<Leaf<A, Waits<A>>, Raise<A>>
    ensures { (s : Status) → FitsState state.now s →
        Talks definition.next_of (definition.log_file args.now s) s result state.now }
{
    let request = read_request(alloc, args)?;
    Ok(change(state, request))
}

/// Continues the command with the answer to the close or to the opening.
///
/// # Errors
/// The log is not opened; or memory is refused.
pub fn answered<A: Allocator + Copy>(
    alloc: A,
    state: &mut State<A>,
    act: Act<A>,
    waits: Waits<A>,
    answer: Answer<A>,
) -> Result<Leaf<A, Waits<A>>, Raise<A>>
    ensures shows { (s : Status) → FitsState state.old s → GoesOn definition.next_of
        (definition.follows waits (deed_of act) (reply_of answer)) s result state.new }
    ensures left { state.new.left ≤ state.old.left }
{
    match (waits, answer) {
        (Waits::Closed(request), _) => {
            end_log(state);
            Ok(open(request))
        }
        (Waits::Opened(all), Answer::Done) => {
            start_log(state, all);
            Ok(empty())
        }
        (Waits::Opened(_), _) => Err(Raise::Fault(Fault::CannotOpenLog(name_opened(alloc, act)))),
    }
}

/// Reads the words of the command.
fn read_request<A: Allocator + Copy>(alloc: A, args: &[Value<A>]) -> Result<Request<A>, Raise<A>>
    ensures { Answers request_of (definition.request args.now) result }
{
    let (all, words) = after_flag(args, b"-a");
    let (drops, words) = after_flag(words, b"-noappend");
    let name = USAGE.at_most_one(alloc, words)?;
    let mode = if drops {
        LogMode::Truncate
    } else {
        LogMode::Append
    };
    let name = copied(alloc, name)?;
    Ok(Request { all, mode, name })
}

/// A copy of a name, where there is one.
fn copied<A: Allocator + Copy>(
    alloc: A,
    name: Option<&[u8]>,
) -> Result<Option<Vec<u8, A>>, NoMemory>
    ensures { IfOk result (λ copy. option_map (λ n. n.items) copy ≡ option_copied name.entry) }
{
    match name {
        Some(name) => Ok(Some(Vec::from_slice(alloc, name)?)),
        None => Ok(None),
    }
}

/// Begins to close the log, where one is open, and to open the one that is asked for.
fn change<A: Allocator + Copy>(state: &State<A>, request: Request<A>) -> Leaf<A, Waits<A>>
    ensures { (s : Status) → FitsState state.now s → Goes definition.next_of
        (definition.changes (request_of request) s) s result state.now }
{
    if state.log.logging {
        Leaf::Asks(Act::CloseLog, Waits::Closed(request))
    } else {
        open(request)
    }
}

/// Begins to open the log that is asked for, if one is.
fn open<A: Allocator + Copy>(request: Request<A>) -> Leaf<A, Waits<A>>
    ensures { (n : ℕ) (s : Status) (state : Kept A) → FitsState state s → Goes definition.next_of
        (definition.opens {n = n} (request_of request)) s result state }
{
    let Request { all, mode, name } = request;
    match name {
        Some(name) => Leaf::Asks(Act::OpenLog(name, mode), Waits::Opened(all)),
        None => empty(),
    }
}

/// The name of the log that an act opens.
fn name_opened<A: Allocator>(alloc: A, act: Act<A>) -> Vec<u8, A>
    ensures { result.items ≡ definition.name_opened (deed_of act) }
{
    match act {
        Act::OpenLog(name, _) => name,
        _ => Vec::new(alloc),
    }
}

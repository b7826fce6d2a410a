//! The beginning of a run: its variables, and nothing that is open.

ghost use Rattle.std.specs.Prelude.{◌≡◌, ◌++◌, ◌∷◌, [], None, IfOk, OnOk};
ghost use Rattle.state.specs.Prelude.{FitsState};
ghost use Rattle.machine.specs.View.{words_of};
ghost use Rattle.runs.specs.Run as run;
ghost use Rattle.runs.specs.Run.{initial, variables};
ghost use Rattle.tclstate.specs.Pairs.{found};
ghost use Rattle.tclstate.specs.Scopes.{Text, scopes as scopes_of};

use acts::{Limits, NoMemory};
use dialog::{KeptBranches, LogState};
use itoa::Buffer;
use state::{Ids, State};
use std::alloc::Allocator;
use tclstate::{Procs, ScopeError, Scopes};
use tcltext::{Value, join_list};

/// The state in which a script with these arguments begins. The first argument is `argv0`, the rest
/// are `argv`.
pub fn beginning<A: Allocator + Copy>(
    alloc: A,
    args: &[Vec<u8, A>],
    limits: Limits,
) -> Result<State<A>, NoMemory>
    ensures { IfOk result (λ state. FitsState state (initial (words_of args.now) limits.ticks)) }
{
    Ok(State {
        scopes: first_scopes(alloc, args)?,
        procs: Procs::new(alloc),
        ids: Ids::new(alloc),
        log: LogState {
            user: true,
            logging: false,
            all: false,
        },
        left: limits.ticks,
        branches: KeptBranches::new(alloc),
    })
}

/// The variables at the beginning (tclsh(1), variables; expect(1), timeout).
fn first_scopes<A: Allocator + Copy>(alloc: A, args: &[Vec<u8, A>]) -> Result<Scopes<A>, NoMemory>
    ensures { IfOk result (λ scopes. scopes ≡ scopes_of [] (variables (words_of args.now))) }
{
    let others = others_of(args);
    let count = others.len() as u64;
    let mut scopes = Scopes::new(alloc);
    add(alloc, &mut scopes, b"argv0", program_of(args))?;
    add(alloc, &mut scopes, b"argv", &join_list(alloc, others)?)?;
    add(
        alloc,
        &mut scopes,
        b"argc",
        Buffer::new().format(count).as_bytes(),
    )?;
    add(alloc, &mut scopes, b"timeout", b"10")?;
    Ok(scopes)
}

/// The name of the program, the first of the arguments.
fn program_of<A: Allocator>(args: &[Vec<u8, A>]) -> &[u8]
    ensures { result.now ≡ run.program_of (words_of args.now) }
{
    match args {
        [first, ..] => first.as_slice(),
        [] => &[],
    }
}

/// The other arguments.
fn others_of<A: Allocator>(args: &[Vec<u8, A>]) -> &[Vec<u8, A>]
    ensures { words_of result.now ≡ run.others_of (words_of args.now) }
{
    match args {
        [_, others @ ..] => others,
        [] => &[],
    }
}

/// Adds a global variable that is not there yet.
fn add<A: Allocator + Copy>(
    alloc: A,
    scopes: &mut Scopes<A>,
    name: &[u8],
    value: &[u8],
) -> Result<(), NoMemory>
    requires global { scopes.old.locals ≡ [] }
    requires absent { found scopes.old.globals name.now ≡ None }
    ensures { OnOk result (scopes.new
        ≡ scopes_of [] (scopes.old.globals ++ (name.now, Text value.now) ∷ [])) }
{
    match scopes.set(alloc, name, None, Value::from_slice(alloc, value)?) {
        Ok(()) => Ok(()),
        Err(ScopeError::NoMemory(refusal)) => Err(refusal),
        Err(_) => unreachable!(),
    }
}

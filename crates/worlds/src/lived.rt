//! A run in the live world, as a call of the program.

ghost use Rattle.std.specs.Prelude.{◌≡◌, ◌≢◌, None, true};
ghost use Rattle.acts.specs.Deed as said;
ghost use Rattle.acts.specs.Deed.{reply_of};
ghost use Rattle.acts.specs.Fits as table;
ghost use Rattle.live.specs.Live.{IsWhy, Lives};
ghost use Rattle.live.specs.Outputs.{went_out};
ghost use Rattle.records.specs.Sink.{Gets};
ghost use Rattle.worlds.specs.Lived.{Acts, LivedRecorded, Steps, open_in};
ghost use Rattle.worlds.specs.Runs.{Heard, RunsRecorded, unheard};

use crate::play::finish;
use crate::recorded::{Refuses, Runner};
use crate::status::Outcome;
use acts::{Act, Answer, Limits, NoMemory, World};
use engine::{End, Unwatched};
use live::{Live, System};
use recorders::{is_lost, put_count};
use records::Sink;
use std::alloc::Global;
use std::fs::File;
use std::io::{self, Write};
use std::net::{Net, TcpStream};
use std::process::{Processes, SystemProcess};
use std::rt::{Clock, Files};

/// Runs a script in the live world, makes a record of this run where there is a sink for it, and
/// gives the status of the program. The output of the script and the line of its end are written
/// to two writers.
pub fn lived<R, O: Sink, E: Sink, S: Sink>(
    rt: &R,
    script: &[u8],
    args: &[Vec<u8>],
    limits: Limits,
    out: &mut O,
    err: &mut E,
    made: &mut Option<S>,
) -> u8
where
    R: Net<Stream = TcpStream>
        + Processes<Started = SystemProcess>
        + Files<File = File>
        + Clock
        + AllocGlobal,
    ensures { LivedRecorded O.adds O.has_failed E.adds E.has_failed unheard
        script.now args.now limits.ticks S.adds S.has_failed (out.old, err.old) made.old
        (out.new, err.new) made.new result }
{
    lived_by(rt, script, args, limits, out, err, made, &mut Unwatched)
}

/// The same, by one who runs the script.
pub fn lived_by<R, O: Sink, E: Sink, S: Sink, X: Runner<Global>>(
    rt: &R,
    script: &[u8],
    args: &[Vec<u8>],
    limits: Limits,
    out: &mut O,
    err: &mut E,
    made: &mut Option<S>,
    runner: &mut X,
) -> u8
where
    R: Net<Stream = TcpStream>
        + Processes<Started = SystemProcess>
        + Files<File = File>
        + Clock
        + AllocGlobal,
    ensures { LivedRecorded O.adds O.has_failed E.adds E.has_failed
        (Heard X.told runner.old runner.new) script.now args.now limits.ticks S.adds S.has_failed
        (out.old, err.old) made.old (out.new, err.new) made.new result }
{
    let ended = run_live(rt, script, args, limits, out, err, made, runner);
    finish(Outcome::of_end(is_lost(made), None, &ended), err)
}

/// Runs a script in the live world. Where the system gives no such world, there are no answers.
fn run_live<R, O: Sink, E: Sink, S: Sink, X: Runner<Global>>(
    rt: &R,
    script: &[u8],
    args: &[Vec<u8>],
    limits: Limits,
    out: &mut O,
    err: &mut E,
    made: &mut Option<S>,
    runner: &mut X,
) -> Result<End<Global>, NoMemory>
where
    R: Net<Stream = TcpStream>
        + Processes<Started = SystemProcess>
        + Files<File = File>
        + Clock
        + AllocGlobal,
    ensures { RunsRecorded (Steps O.adds E.adds) S.adds S.has_failed
        (Heard X.told runner.old runner.new) script.now args.now limits.ticks (out.old, err.old)
        made.old (out.new, err.new) made.new result }
{
    match Live::new(rt, Unwritten, Unwritten) {
        Ok(mut live) => run_over_by(
            &mut live,
            rt.alloc(),
            script,
            args,
            limits,
            out,
            err,
            made,
            runner,
        ),
        Err(_) => run_silent(rt.alloc(), script, args, limits, out, err, made, runner),
    }
}

/// Runs a script in a live world over a system, and makes a record of this run where there is a
/// sink for it. What the run writes goes to the two sinks, and not to the writers of that world.
/// The acts of the run are those that the world performs, by the calls of its system that they say.
pub fn run_over<Y: System + Drop, O: Sink, E: Sink, S: Sink>(
    live: &mut Live<Y, Unwritten, Unwritten>,
    alloc: Global,
    script: &[u8],
    args: &[Vec<u8>],
    limits: Limits,
    out: &mut O,
    err: &mut E,
    made: &mut Option<S>,
) -> Result<End<Global>, NoMemory>
    ensures { RunsRecorded (Acts O.adds E.adds Y.Log.contents Y.holds
        Y.Program.owner Y.step Y.Link.owner) S.adds S.has_failed unheard script.now args.now
        limits.ticks (
          open_in live.old.system live.old.log live.old.peers live.old.programs.items,
          (out.old, err.old),
        ) made.old (
          open_in live.new.system live.new.log live.new.peers live.new.programs.items,
          (out.new, err.new),
        ) made.new result }
{
    run_over_by(
        live,
        alloc,
        script,
        args,
        limits,
        out,
        err,
        made,
        &mut Unwatched,
    )
}

/// The same, by one who runs the script.
pub fn run_over_by<Y: System + Drop, O: Sink, E: Sink, S: Sink, X: Runner<Global>>(
    live: &mut Live<Y, Unwritten, Unwritten>,
    alloc: Global,
    script: &[u8],
    args: &[Vec<u8>],
    limits: Limits,
    out: &mut O,
    err: &mut E,
    made: &mut Option<S>,
    runner: &mut X,
) -> Result<End<Global>, NoMemory>
    ensures { RunsRecorded (Acts O.adds E.adds Y.Log.contents Y.holds
        Y.Program.owner Y.step Y.Link.owner) S.adds S.has_failed
        (Heard X.told runner.old runner.new) script.now args.now limits.ticks (
          open_in live.old.system live.old.log live.old.peers live.old.programs.items,
          (out.old, err.old),
        ) made.old (
          open_in live.new.system live.new.log live.new.peers live.new.programs.items,
          (out.new, err.new),
        ) made.new result }
{
    let mut world = LentLive { live, out, err };
    run_lent(alloc, script, args, limits, &mut world, made, runner)
}

/// Runs a script in a live world that is lent, which still borrows the same parts afterwards.
fn run_lent<Y: System + Drop, O: Sink, E: Sink, S: Sink, X: Runner<Global>>(
    alloc: Global,
    script: &[u8],
    args: &[Vec<u8>],
    limits: Limits,
    world: &mut LentLive<'_, '_, '_, Y, O, E>,
    made: &mut Option<S>,
    runner: &mut X,
) -> Result<End<Global>, NoMemory>
    ensures same_live { world.new.live.ghost_name ≡ world.old.live.ghost_name }
    ensures same_out { world.new.out.ghost_name ≡ world.old.out.ghost_name }
    ensures same_err { world.new.err.ghost_name ≡ world.old.err.ghost_name }
    ensures runs { RunsRecorded (Acts O.adds E.adds Y.Log.contents Y.holds
        Y.Program.owner Y.step Y.Link.owner) S.adds S.has_failed
        (Heard X.told runner.old runner.new) script.now args.now limits.ticks (
          open_in world.old.live.now.system world.old.live.now.log
              world.old.live.now.peers world.old.live.now.programs.items,
          (world.old.out.now, world.old.err.now),
        ) made.old (
          open_in world.new.live.now.system world.new.live.now.log
              world.new.live.now.peers world.new.live.now.programs.items,
          (world.new.out.now, world.new.err.now),
        ) made.new result }
{
    runner.run(alloc, script, args, limits, world, made)
}

/// Runs a script where the system gives no live world: there are no answers, and nothing goes out.
fn run_silent<O: Sink, E: Sink, S: Sink, X: Runner<Global>>(
    alloc: Global,
    script: &[u8],
    args: &[Vec<u8>],
    limits: Limits,
    _out: &O,
    _err: &E,
    made: &mut Option<S>,
    runner: &mut X,
) -> Result<End<Global>, NoMemory>
    ensures { RunsRecorded (Steps O.adds E.adds) S.adds S.has_failed
        (Heard X.told runner.old runner.new) script.now args.now limits.ticks
        (_out.now, _err.now) made.old (_out.now, _err.now) made.new result }
{
    runner.run(alloc, script, args, limits, &mut Silent, made)
}

/// What stands in a live world for its two writers where a run writes to sinks: nothing is written
/// to it.
#[derive(Drop)]
pub struct Unwritten;

impl Write for Unwritten {
    fn write(&mut self, text: &[u8]) -> io::Result<usize> {
        Ok(text.len())
    }

    fn flush(&mut self) -> io::Result<()> {
        Ok(())
    }
}

/// A live world that is lent, with the two sinks that it writes to.
#[derive(Drop)]
struct LentLive<'l, 'o, 'e, Y: System, O, E> {
    live: &'l mut Live<Y, Unwritten, Unwritten>,
    out: &'o mut O,
    err: &'e mut E,
}

impl<Y: System + Drop, O: Sink, E: Sink> World<Global> for LentLive<'_, '_, '_, Y, O, E> {
    // An act of the live world, after which the same parts are still lent; why the last act was
    // refused or failed is known, and of no other act.
    ghost step = { λ before act answer after.
        Acts O.adds E.adds Y.Log.contents Y.holds Y.Program.owner Y.step Y.Link.owner (
          open_in before.live.now.system before.live.now.log before.live.now.peers
              before.live.now.programs.items,
          (before.out.now, before.err.now),
        ) act answer (
          open_in after.live.now.system after.live.now.log after.live.now.peers
              after.live.now.programs.items,
          (after.out.now, after.err.now),
        )
        × (after.live.ghost_name ≡ before.live.ghost_name)
        × (after.out.ghost_name ≡ before.out.ghost_name)
        × (after.err.ghost_name ≡ before.err.ghost_name)
        × IsWhy answer None after.live.now.refusal };

    fn act(&mut self, act: &Act<Global>) -> Answer<Global> {
        match act {
            Act::Out(text) => {
                let mut why = None;
                let answer = put_text(self.out, text, &mut why);
                self.live.note(why);
                answer
            }
            Act::Err(text) => {
                let mut why = None;
                let answer = put_text(self.err, text, &mut why);
                self.live.note(why);
                answer
            }
            _ => self.live.act(act),
        }
    }
}

impl<Y: System + Drop, O, E> Refuses<Global> for LentLive<'_, '_, '_, Y, O, E> {
    fn refusal(&self) -> Option<io::Error> {
        self.live.refusal()
    }
}

/// Puts a text into a sink, and where this fails says how many bytes went out, and keeps why.
fn put_text<S: Sink>(sink: &mut S, text: &[u8], why: &mut Option<io::Error>) -> Answer<Global>
    ensures fits { table.fits_write text.now (reply_of result) ≡ true }
    ensures why { IsWhy (reply_of result) why.old why.new }
    ensures gets { Gets S.adds sink.old (went_out text.now (reply_of result)) sink.new }
    ensures fails { reply_of result ≢ said.Done → S.has_failed sink.new ≡ true }
{
    let sent = put_count(sink, text);
    if sent == text.len() {
        Answer::Done
    } else {
        *why = sink.fault();
        Answer::Failed(sent as u64)
    }
}

/// What stands for the live world where the system gives none: it has no answer to any act.
#[derive(Drop)]
struct Silent;

impl World<Global> for Silent {
    ghost step = { λ _ act answer _. Lives act answer × (answer ≡ said.NoMore) };

    fn act(&mut self, _act: &Act<Global>) -> Answer<Global> {
        Answer::NoMore
    }
}

impl Refuses<Global> for Silent {
    fn refusal(&self) -> Option<io::Error> {
        None
    }
}

//! A run under replay, as a call of the program.

ghost use Rattle.std.specs.Prelude.{◌≡◌, ◌⊎◌, ◌||◌, ℕ, List, false, if◌then◌else◌, map};
ghost use Rattle.records.specs.Entry.{AreEntries, HasSecondHeader, IsBadLine, Note, note_of};
ghost use Rattle.records.specs.Record.{HasHeader};
ghost use Rattle.records.specs.Sink.{Takes};
ghost use Rattle.recorders.specs.Recorder as spec;
ghost use Rattle.replays.specs.Reel.{reeled_in};
ghost use Rattle.replays.specs.Replay.{ReplaysBy};
ghost use Rattle.worlds.specs.Play.{Declines, Plays, PlaysRecorded, PlaysRecordedOn, Replayed, Starves};
ghost use Rattle.worlds.specs.Runs.{Heard, RunsRecorded, unheard};
ghost use Rattle.worlds.specs.Status.{line_of, status_of};
ghost use Rattle.worlds.specs.declared.status.Outcome.TheVariants.{BadRecord};

use crate::recorded::{Refuses, Runner};
use crate::status::Outcome;
use acts::{Limits, NoMemory};
use engine::{End, Unwatched};
use recorders::is_lost;
use records::{Entry, Sink, Source, read_entries};
use replays::{Answerer, LentReplay, Recording, Reel};
use std::alloc::Allocator;
use std::io;

/// The type of the sink where no record is made.
#[derive(Drop)]
struct Nowhere;

impl Sink for Nowhere {
    ghost adds = { λ before bytes after. before ≡ after };

    ghost has_failed = { λ sink. false };

    fn put(&mut self, bytes: &[u8]) -> usize {
        bytes.len()
    }

    fn failed(&self) -> bool {
        false
    }

    fn fault(&self) -> Option<io::Error> {
        None
    }
}

impl<A: Allocator, R, O, E> Refuses<A> for LentReplay<'_, '_, '_, R, O, E> {
    /// A record does not say why.
    fn refusal(&self) -> Option<io::Error> {
        None
    }
}

/// Runs a script against the record of the file `name`, and gives the status of the program, as
/// `replayed` does, but takes the two writers over.
pub fn play<A: Allocator + Copy, O: Sink + Drop, E: Sink + Drop>(
    alloc: A,
    script: &[u8],
    args: &[Vec<u8, A>],
    limits: Limits,
    name: &[u8],
    record: &[u8],
    mut out: O,
    mut err: E,
) -> u8
    requires out { O.has_failed out ≡ false }
    requires err { E.has_failed err ≡ false }
    ensures { (last : O × E) × Replayed O.adds O.has_failed E.adds E.has_failed unheard
        script.now args.now limits.ticks name.entry «record».now (out, err) last result }
{
    replayed(
        alloc, script, args, limits, name, record, &mut out, &mut err,
    )
}

/// Runs a script against the record of the file `name`, and gives the status of the program. The
/// output of the script and the line of its end are written to two writers that have not failed.
pub fn replayed<A: Allocator + Copy, O: Sink, E: Sink>(
    alloc: A,
    script: &[u8],
    args: &[Vec<u8, A>],
    limits: Limits,
    name: &[u8],
    record: &[u8],
    out: &mut O,
    err: &mut E,
) -> u8
    requires out { O.has_failed out.old ≡ false }
    requires err { E.has_failed err.old ≡ false }
    // The record is refused, or the script runs under its entries.
    ensures ends { Replayed O.adds O.has_failed E.adds E.has_failed unheard
        script.now args.now limits.ticks name.entry «record».now
        (out.old, err.old) (out.new, err.new) result }

    // And conversely, by the text of the record: what each kind of text leads to.
    ensures no_header { ¬ HasHeader «record».now → ¬ HasSecondHeader «record».now
        → Declines O.adds O.has_failed E.adds E.has_failed
        (BadRecord name.entry 1) (out.old, err.old) (out.new, err.new) result }
    ensures bad_line { (n : ℕ) → IsBadLine «record».now n
        → Declines O.adds O.has_failed E.adds E.has_failed
        (BadRecord name.entry n) (out.old, err.old) (out.new, err.new) result
        ⊎ Starves O.adds O.has_failed E.adds E.has_failed
        (out.old, err.old) (out.new, err.new) result }
    ensures answers { (entries : List Note) → AreEntries entries «record».now
        → Plays O.adds O.has_failed E.adds E.has_failed unheard script.now args.now limits.ticks
        false entries (out.old, err.old) (out.new, err.new) result
        ⊎ Starves O.adds O.has_failed E.adds E.has_failed
        (out.old, err.old) (out.new, err.new) result }
{
    match read_entries(alloc, record) {
        Ok(entries) => rerun(
            alloc,
            script,
            args,
            limits,
            entries,
            out,
            err,
            &mut None::<Nowhere>,
        ),
        Err(fault) => finish(Outcome::of_fault(name, fault), err),
    }
}

/// Runs a script under the entries of a record, makes a record of this run where there is a sink
/// for it, and gives the status of the program. The output of the script and the line of its end
/// are written to two writers. None of the three has failed.
pub fn rerun<A: Allocator + Copy, O: Sink, E: Sink, S: Sink>(
    alloc: A,
    script: &[u8],
    args: &[Vec<u8, A>],
    limits: Limits,
    entries: Vec<Entry<A>, A>,
    out: &mut O,
    err: &mut E,
    made: &mut Option<S>,
) -> u8
    ensures { PlaysRecorded O.adds O.has_failed E.adds E.has_failed unheard
        script.now args.now limits.ticks S.adds S.has_failed
        (map note_of entries.items) (out.old, err.old) made.old (out.new, err.new) made.new
        result }
{
    rerun_by(
        alloc,
        script,
        args,
        limits,
        entries,
        out,
        err,
        made,
        &mut Unwatched,
    )
}

/// The same, by one who runs the script.
pub fn rerun_by<A: Allocator + Copy, O: Sink, E: Sink, S: Sink, X: Runner<A>>(
    alloc: A,
    script: &[u8],
    args: &[Vec<u8, A>],
    limits: Limits,
    entries: Vec<Entry<A>, A>,
    out: &mut O,
    err: &mut E,
    made: &mut Option<S>,
    runner: &mut X,
) -> u8
    ensures { PlaysRecorded O.adds O.has_failed E.adds E.has_failed
        (Heard X.told runner.old runner.new) script.now args.now limits.ticks S.adds S.has_failed
        (map note_of entries.items) (out.old, err.old) made.old (out.new, err.new) made.new
        result }
{
    let mut recording = Recording::of_entries(entries);
    let ended = run_recording(
        alloc,
        script,
        args,
        limits,
        &mut recording,
        out,
        err,
        made,
        runner,
    );
    let failed = any_failed(out, err, made);
    finish(Outcome::of_end(failed, recording.differs(), &ended), err)
}

/// The same under the record of the file `name`, which is read as the run goes on.
pub fn rerun_reel<A, F, O, E, S, X>(
    alloc: A,
    script: &[u8],
    args: &[Vec<u8, A>],
    limits: Limits,
    name: &[u8],
    mut reel: Reel<A, F>,
    out: &mut O,
    err: &mut E,
    made: &mut Option<S>,
    runner: &mut X,
) -> u8
where
    A: Allocator + Copy,
    F: Source + Drop,
    O: Sink,
    E: Sink,
    S: Sink,
    X: Runner<A>,
    ensures { PlaysRecordedOn O.adds O.has_failed E.adds E.has_failed
        (Heard X.told runner.old runner.new) script.now args.now limits.ticks S.adds S.has_failed
        F.gives F.gives_up F.most name.entry (reeled_in reel) (out.old, err.old) made.old
        (out.new, err.new) made.new result }
{
    let ended = run_recording(
        alloc, script, args, limits, &mut reel, out, err, made, runner,
    );
    let failed = any_failed(out, err, made);
    finish(Outcome::of_reel(failed, name, reel.halt(), &ended), err)
}

/// Whether the sink of a record that is made, or one of two writers, has failed.
fn any_failed<O: Sink, E: Sink, S: Sink>(out: &O, err: &E, made: &Option<S>) -> bool
    ensures { result ≡ (spec.is_lost S.has_failed made.now
        || (O.has_failed out.now || E.has_failed err.now)) }
{
    is_lost(made) || either_failed(out, err)
}

/// Whether one of two writers has failed.
fn either_failed<O: Sink, E: Sink>(out: &O, err: &E) -> bool
    ensures { result ≡ (O.has_failed out.now || E.has_failed err.now) }
{
    out.failed() || err.failed()
}

/// Runs a script under the rest of a recorded run, and writes its output to two writers.
fn run_recording<A, R, O, E, S, X>(
    alloc: A,
    script: &[u8],
    args: &[Vec<u8, A>],
    limits: Limits,
    recorded: &mut R,
    out: &mut O,
    err: &mut E,
    made: &mut Option<S>,
    runner: &mut X,
) -> Result<End<A>, NoMemory>
where
    A: Allocator + Copy,
    R: Answerer<A>,
    O: Sink,
    E: Sink,
    S: Sink,
    X: Runner<A>,
    ensures { RunsRecorded (ReplaysBy O.adds O.has_failed E.adds E.has_failed R.answers)
        S.adds S.has_failed (Heard X.told runner.old runner.new) script.now args.now limits.ticks
        (recorded.old, (out.old, err.old)) made.old (recorded.new, (out.new, err.new)) made.new
        result }
{
    let mut world = LentReplay { recorded, out, err };
    run_replay(alloc, script, args, limits, &mut world, made, runner)
}

/// Runs a script in a replay, which still borrows the same recorded run and writers afterwards.
fn run_replay<A, R, O, E, S, X>(
    alloc: A,
    script: &[u8],
    args: &[Vec<u8, A>],
    limits: Limits,
    world: &mut LentReplay<'_, '_, '_, R, O, E>,
    made: &mut Option<S>,
    runner: &mut X,
) -> Result<End<A>, NoMemory>
where
    A: Allocator + Copy,
    R: Answerer<A>,
    O: Sink,
    E: Sink,
    S: Sink,
    X: Runner<A>,
    ensures same_recorded { world.new.recorded.ghost_name ≡ world.old.recorded.ghost_name }
    ensures same_out { world.new.out.ghost_name ≡ world.old.out.ghost_name }
    ensures same_err { world.new.err.ghost_name ≡ world.old.err.ghost_name }
    ensures runs { RunsRecorded (ReplaysBy O.adds O.has_failed E.adds E.has_failed R.answers)
        S.adds S.has_failed (Heard X.told runner.old runner.new) script.now args.now limits.ticks
        (world.old.recorded.now, (world.old.out.now, world.old.err.now)) made.old
        (world.new.recorded.now, (world.new.out.now, world.new.err.now)) made.new
        result }
{
    runner.run(alloc, script, args, limits, world, made)
}

/// Writes the line of an end to standard error, and gives the status. Where the line is not
/// written, the status is that of a writer that failed.
pub fn finish<E: Sink>(outcome: Outcome<'_>, err: &mut E) -> u8
    ensures line { Takes E.adds E.has_failed err.old (line_of outcome.entry) err.new }
    ensures status { result ≡ (if E.has_failed err.new then 4 else status_of outcome.entry) }
{
    outcome.write_line(err);
    if err.failed() {
        Outcome::OutputFailed.status()
    } else {
        outcome.status()
    }
}

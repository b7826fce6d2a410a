//! A run of which a record may be made.

ghost use Rattle.std.specs.Prelude.{◌≡◌};
ghost use Rattle.recorders.specs.Recorder.{MayRecord};
ghost use Rattle.worlds.specs.Runs.{Heard, Runs, RunsRecorded, unheard};

use acts::{Limits, NoMemory, World};
use engine::{End, Lead, Running, State, Unwatched, Watch, run_watched};
use recorders::{LentRecorder, begin};
use records::Sink;
use std::alloc::Allocator;
use std::io;

/// A world that may know why it refused an act.
pub trait Refuses<A: Allocator> {
    /// Why the last act was refused or failed, in the words of the system, where that is known.
    fn refusal(&self) -> Option<io::Error>;
}

/// One who runs scripts in worlds that are lent, as `run_recorded` does, and may watch the runs.
pub trait Runner<A: Allocator + Copy> {
    ghost use Rattle.std.specs.Prelude.{[]};
    ghost use Rattle.acts.specs.History.{History};

    /// Whether who runs a script may come from one state to another by being told these acts with
    /// their answers, in this order.
    ghost told: { Self → History → Self → Type 0 };

    /// Runs a script in a world that is lent, and makes a record of this run where there is a sink
    /// for it, to which nothing has been written yet.
    fn run<W: World<A> + Refuses<A>, S: Sink>(
        &mut self,
        alloc: A,
        script: &[u8],
        args: &[Vec<u8, A>],
        limits: Limits,
        world: &mut W,
        made: &mut Option<S>,
    ) -> Result<End<A>, NoMemory>
        ensures { RunsRecorded W.step S.adds S.has_failed (Heard told self.old self.new) script.now
            args.now limits.ticks world.old made.old world.new made.new result };

    /// Who is told of no act may stay as it is.
    ghost stays: { (x : Self) → told x [] x };
}

impl<A: Allocator + Copy> Runner<A> for Unwatched {
    ghost use Rattle.std.specs.Prelude.{⊤};

    // Nothing is kept.
    ghost told = { λ _ _ _. ⊤ };

    ghost stays = { λ _. tt };

    fn run<W: World<A> + Refuses<A>, S: Sink>(
        &mut self,
        alloc: A,
        script: &[u8],
        args: &[Vec<u8, A>],
        limits: Limits,
        world: &mut W,
        made: &mut Option<S>,
    ) -> Result<End<A>, NoMemory> {
        run_seen(alloc, script, args, limits, world, made, &mut Unwatched)
    }
}

/// Runs a script in a world that is lent, and makes a record of this run where there is a sink for
/// it, to which nothing has been written yet.
pub fn run_recorded<A: Allocator + Copy, W: World<A>, S: Sink>(
    alloc: A,
    script: &[u8],
    args: &[Vec<u8, A>],
    limits: Limits,
    world: &mut W,
    made: &mut Option<S>,
) -> Result<End<A>, NoMemory>
    ensures { RunsRecorded W.step S.adds S.has_failed unheard script.now args.now limits.ticks
        world.old made.old world.new made.new result }
{
    run_seen(alloc, script, args, limits, world, made, &mut Unwatched)
}

/// The same, while someone watches.
pub fn run_seen<
    A: Allocator + Copy,
    W: World<A>,
    S: Sink,
    T: Watch<A, Running<A>, State<A>, Lead<A>>,
>(
    alloc: A,
    script: &[u8],
    args: &[Vec<u8, A>],
    limits: Limits,
    world: &mut W,
    made: &mut Option<S>,
    watch: &mut T,
) -> Result<End<A>, NoMemory>
    // Who watches was told each act with its answer, once and in order.
    ensures { RunsRecorded W.step S.adds S.has_failed (Heard T.told watch.old watch.new)
        script.now args.now limits.ticks world.old made.old world.new made.new result }
{
    begin(made);
    let mut recorder = LentRecorder { world, made };
    run_lent(alloc, script, args, limits, &mut recorder, watch)
}

/// Runs a script in a recorder, which still borrows the same world and sink afterwards.
fn run_lent<A: Allocator + Copy, W: World<A>, S: Sink, T: Watch<A, Running<A>, State<A>, Lead<A>>>(
    alloc: A,
    script: &[u8],
    args: &[Vec<u8, A>],
    limits: Limits,
    recorder: &mut LentRecorder<'_, '_, W, S>,
    watch: &mut T,
) -> Result<End<A>, NoMemory>
    ensures same_world { recorder.new.world.ghost_name ≡ recorder.old.world.ghost_name }
    ensures same_made { recorder.new.made.ghost_name ≡ recorder.old.made.ghost_name }
    ensures runs { Runs (MayRecord W.step S.adds S.has_failed)
        (Heard T.told watch.old watch.new) script.now args.now limits.ticks
        (recorder.old.world.now, recorder.old.made.now)
        (recorder.new.world.now, recorder.new.made.now) result }
{
    run_watched(alloc, script, args, limits, recorder, watch)
}

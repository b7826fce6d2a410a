//! What holds of the record of a run and of its replay.

ghost use Rattle.recorders.specs.Laws.{IsFiled, IsRecorded, IsReplayed, IsWholeRecord, MayBeRecorded};

use acts::World;
use records::Sink;
use std::alloc::Allocator;

/// What a recorder writes as a run goes on is the record of its acts and answers, whatever the
/// world; a sink that has not failed in the end got that record and nothing else.
pub fn runs_are_recorded<A: Allocator, W: World<A>, S: Sink>()
    ensures steps { IsRecorded W.step S.adds S.has_failed }
    ensures whole { IsWholeRecord W.step S.adds S.has_failed }
    ensures lent { MayBeRecorded W.step S.adds S.has_failed }
{}

/// The file of a record got, after each act, the record of the run so far and nothing else, and
/// nothing of that is still gathered; where it has failed, it got a beginning of it.
pub fn records_are_filed<A: Allocator, W: World<A>, S: Sink>()
    ensures { IsFiled W.step S.adds }
{}

/// A replay of what was recorded answers each act as it was answered when it was recorded, and no
/// act differs, provided that equal answers lead to equal acts in both runs, and that the recorded
/// run ended once there were no more answers. Both conditions hold of the runs of one script.
pub fn records_are_replayed<O: Sink, E: Sink>()
    ensures { IsReplayed O.adds O.has_failed E.adds E.has_failed }
{}

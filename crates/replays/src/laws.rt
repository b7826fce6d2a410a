//! What holds of replays that are read as they go on.

ghost use Rattle.replays.specs.Laws.{AreReplays};

use records::{Sink, Source};

/// A replay whose record is read as it goes on is a replay of the entries that were read, of which
/// there are no more than were left, and whose lines are what was used of the source.
pub fn reels_are_replays<S: Source, O: Sink, E: Sink>()
    ensures { AreReplays S.gives S.gives_up S.most O.adds O.has_failed E.adds E.has_failed }
{}

//! What is proved of the definition of a window, for those who reason about journals.
ghost use Rattle.matchbuf.specs.Laws.{ArrivalsJoin, ConsumptionsTake, SizesKeep, WindowsEnd};
ghost use Rattle.matchbuf.specs.Laws.{VisibleAtEnd, GoneForGood, ShortJournals, WindowsHold};
ghost use Rattle.matchbuf.specs.Rows.{WorkedRows};

/// Does nothing: its clauses say what the window of a journal is.
pub fn window_laws()
    ensures arrivals { ArrivalsJoin }
    ensures consumptions { ConsumptionsTake }
    ensures sizes { SizesKeep }
    ensures end { WindowsEnd }
    ensures visible { VisibleAtEnd }
    ensures gone { GoneForGood }
    ensures short_journals { ShortJournals }
    ensures hold { WindowsHold }
    ensures rows { WorkedRows }
{}

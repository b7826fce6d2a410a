//! What holds of all runs.

ghost use Rattle.runs.specs.Laws.{ActsAreBounded, AnswersDecide, AnswersLead, AnyAnswerLeadsOn, ClosesRise, EachScriptRuns, NothingFollows, WaitsHold};

/// In all runs of one script, its arguments and a limit, the first n answers decide the first n + 1
/// events, an event being an act or the end: the n-th act, and whether there is one, depends on the
/// first n - 1 answers alone. So two runs that give the same answers are one.
pub fn answers_decide()
    ensures each { AnswersLead }
    ensures whole { AnswersDecide }
{}

/// A run makes at most four acts for each tick, and one more.
pub fn acts_are_bounded()
    ensures { ActsAreBounded }
{}

/// At every wait of a run each buffer holds at most its size.
pub fn waits_hold()
    ensures { WaitsHold }
{}

/// Once a script is over, what is open is closed in rising order of ids, where those that are open
/// stand in that order. They do in each state of the definition that a table of open ids fits
/// (`choices::laws::open_ids_rise`).
pub fn closes_rise()
    ensures { ClosesRise }
{}

/// An answer that does not fit its act is the last one of its run; so is the answer that there are
/// no more answers.
pub fn nothing_follows_a_cut()
    ensures { NothingFollows }
{}

/// Each script has a run, and at each act of a run any other answer leads to an end too.
#[tactic(auto, using(crate::proofs::AllRuns::finished_runs))]
pub fn runs_can_be_finished()
    ensures run { EachScriptRuns }
    ensures otherwise { AnyAnswerLeadsOn }
{}

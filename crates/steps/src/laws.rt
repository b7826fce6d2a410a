//! What holds of the instructions of all codes.

ghost use Rattle.steps.specs.Follows.{CodeLeads, FormulasBegin, InstructionsLead, ScriptsBegin};

/// Where something is left to be done, the instruction there does it, and so do several
/// instructions, whatever the code, and whatever is done last.
#[tactic(auto, using(crate::proofs::Leads::Each::instructions_lead))]
pub fn instructions_lead<A, X>()
    ensures one { InstructionsLead A X }
    ensures several { CodeLeads A X }
{}

/// A script of which nothing is done yet is left to be done where its code begins.
#[tactic(auto, using(crate::proofs::Leads::Each::scripts_begin))]
pub fn scripts_begin<A, X>()
    ensures { ScriptsBegin A X }
{}

/// A formula of which nothing is done yet is left to be done where its code begins.
#[tactic(auto, using(crate::proofs::Leads::Each::formulas_begin))]
pub fn formulas_begin<A, X>()
    ensures { FormulasBegin A X }
{}

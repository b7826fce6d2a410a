//! What is open while a script runs that stands in the code of a loop or of a `catch`.

ghost use Rattle.std.specs.Prelude.{◌≡◌};
ghost use Rattle.state.specs.View.{code_of};
ghost use Rattle.steps.specs.Handling as definition;
ghost use Rattle.steps.specs.declared.handler.Covered.TheVariants as covered;

use state::Code;

/// What an outcome may lead out of.
#[derive(Clone, Copy, Debug)]
pub enum Covered {
    /// The body of a turn of a loop, which ends at this place (while(n), for(n), foreach(n)).
    Body(usize),
    /// The script after the body of a turn (for(n)).
    Step,
    /// The script of a `catch` (catch(n)).
    Catch,
}

/// What is open, and where an outcome that is no value leads in it (while(n), for(n), catch(n)).
#[derive(Clone, Copy, Debug)]
pub struct Handler {
    /// What it is.
    pub covers: Covered,
    /// The place after the loop, to which `break` leads, or the place after the script of the
    /// `catch`, to which every outcome does.
    pub over: usize,
    /// How many operands there are outside of it.
    pub operands: usize,
    /// How many marks there are outside of it.
    pub marks: usize,
    /// The levels that may still nest outside of it.
    pub levels: u8,
}

/// Which way an outcome that is no value goes.
#[derive(Clone, Copy, Debug)]
pub(crate) enum Way {
    /// Out of the loop.
    Out,
    /// To the place where the body of the turn ends.
    End(usize),
    /// To the place after the script of the `catch`.
    Caught,
}

/// Which way an outcome with this code goes in the body of a turn that ends at this place.
fn way_in_body(code: Code, end: usize) -> Option<Way>
    ensures { result ≡ definition.way_of (covered.Body end) (code_of code) }
{
    match code {
        Code::Break => Some(Way::Out),
        Code::Continue => Some(Way::End(end)),
        Code::Error => None,
        Code::Return => None,
        Code::Again => None,
        Code::AgainRunning => None,
    }
}

/// Which way it goes in the script after the body of a turn.
fn way_in_step(code: Code) -> Option<Way>
    ensures { result ≡ definition.way_of covered.Step (code_of code) }
{
    match code {
        Code::Break => Some(Way::Out),
        Code::Continue => None,
        Code::Error => None,
        Code::Return => None,
        Code::Again => None,
        Code::AgainRunning => None,
    }
}

/// Which way an outcome with this code goes in what a handler covers; `None` where it is passed on
/// to what is around that.
pub(crate) fn way_of(covers: Covered, code: Code) -> Option<Way>
    ensures { result ≡ definition.way_of covers (code_of code) }
{
    match covers {
        Covered::Body(end) => way_in_body(code, end),
        Covered::Step => way_in_step(code),
        Covered::Catch => Some(Way::Caught),
    }
}

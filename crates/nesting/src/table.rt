//! The table of the names of commands that run scripts, and how these begin and continue.

ghost use Rattle.std.specs.Prelude.{◌≡◌, ◌≤◌, IfOk, option_map};
ghost use Rattle.state.specs.Prelude.{Status, FitsState, outcome_of};
ghost use Rattle.nesting.specs.Called.{IsCalled};
ghost use Rattle.nesting.specs.Commands as definition;
ghost use Rattle.nesting.specs.Nesting.{Nests, TicksFirst};
ghost use Rattle.nesting.specs.View.{HasBegun, control_of, next_of};

use crate::begun::{Begun, from_eval, from_held, from_words};
use crate::held::{Held, from_call, from_expr, from_foreach};
use crate::{
    Nesting, calls, catch, conditional, eval, expr, for_loop, foreach, switch, while_loop,
};
use acts::NoMemory;
use kept::{Kept, Parsed};
use state::{Outcome, State};
use std::alloc::Allocator;
use tcltext::Value;

/// The commands that run scripts within them.
#[derive(Clone, Copy, Debug, PartialEq, Eq)]
pub enum Control {
    Catch,
    Eval,
    Expr,
    For,
    Foreach,
    If,
    Switch,
    While,
}

impl Control {
    /// The command of a name.
    #[tactic(auto, using(names::proofs::Compared::compared))]
    pub fn read(name: &[u8]) -> Option<Control>
        ensures { option_map control_of result ≡ definition.named name.now }
    {
        match name {
            b"catch" => Some(Control::Catch),
            b"eval" => Some(Control::Eval),
            b"expr" => Some(Control::Expr),
            b"for" => Some(Control::For),
            b"foreach" => Some(Control::Foreach),
            b"if" => Some(Control::If),
            b"switch" => Some(Control::Switch),
            b"while" => Some(Control::While),
            _ => None,
        }
    }
}

/// Calls the procedure of a name with the words after it, in which this many levels may still nest;
/// gives `None` where no procedure has the name.
///
/// # Errors
/// `NoMemory` where memory is refused.
pub fn call<A: Allocator + Copy>(
    alloc: A,
    kept: &mut Kept<A>,
    state: &mut State<A>,
    name: &[u8],
    words: &[Value<A>],
    levels: u8,
) -> Result<Option<Nesting<A, Held<A>>>, NoMemory>
    ensures called { (s : Status) → FitsState state.old s → IfOk result (λ called.
        IsCalled next_of called state.new levels name.now words.now s) }
    ensures left { state.new.left ≤ state.old.left }
{
    match calls::begin(alloc, kept, state, name, words, levels)? {
        Some(nesting) => Ok(Some(from_call(nesting))),
        None => Ok(None),
    }
}

/// Begins a command with the words after its name, in which this many levels may still nest.
///
/// # Errors
/// `NoMemory` where memory is refused.
pub fn begin<A: Allocator + Copy>(
    alloc: A,
    parsed: &mut Parsed<A>,
    state: &mut State<A>,
    control: Control,
    args: &[Value<A>],
    levels: u8,
) -> Result<Begun<A>, NoMemory>
    ensures begins { (s : Status) → FitsState state.old s → IfOk result (λ begun.
        HasBegun begun state.new (definition.does (control_of control) levels args.now s)) }
    ensures left { state.new.left ≤ state.old.left }
{
    match control {
        Control::Catch => Ok(from_words(alloc, catch::read(alloc, args), levels)?),
        Control::For => Ok(from_words(alloc, for_loop::read(alloc, args), levels)?),
        Control::If => Ok(from_words(alloc, conditional::read(alloc, args), levels)?),
        Control::While => Ok(from_words(alloc, while_loop::read(alloc, args), levels)?),
        Control::Eval => {
            let nesting = eval::begin(alloc, &mut parsed.scripts, state, args, levels)?;
            Ok(from_eval(nesting))
        }
        Control::Switch => {
            let nesting = switch::begin(alloc, &mut parsed.scripts, state, args, levels)?;
            Ok(from_eval(nesting))
        }
        Control::Expr => {
            let nesting = expr::begin(alloc, &mut parsed.formulas, state, args, levels)?;
            Ok(from_held(from_expr(nesting)))
        }
        Control::Foreach => {
            let nesting = foreach::begin(alloc, &mut parsed.scripts, state, args, levels)?;
            Ok(from_held(from_foreach(nesting)))
        }
    }
}

/// Continues a command with the outcome of the script or of the formula within it.
///
/// # Errors
/// `NoMemory` where memory is refused.
pub fn resumed<A: Allocator + Copy>(
    alloc: A,
    state: &mut State<A>,
    held: Held<A>,
    outcome: Outcome<A>,
) -> Result<Nesting<A, Held<A>>, NoMemory>
    ensures nests { (s : Status) → FitsState state.old s → IfOk result (λ nesting.
        Nests next_of nesting state.new (next_of held s (outcome_of outcome))) }
    ensures left { state.new.left ≤ state.old.left }
    ensures ticks { IfOk result (λ nesting.
        TicksFirst nesting state.new.left state.old.left) }
{
    match held {
        Held::Call(_) => Ok(from_call(calls::resumed(alloc, state, outcome)?)),
        Held::Expr(own) => Ok(from_expr(expr::resumed(alloc, state, own, outcome)?)),
        Held::Foreach(own) => Ok(from_foreach(foreach::resumed(alloc, state, own, outcome)?)),
    }
}

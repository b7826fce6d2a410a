//! The commands that run scripts within them, and the calls of procedures.
#![tactic(auto)]

mod arguments;
mod begun;
pub mod calls;
mod catch;
mod conditional;
pub mod eval;
pub mod expr;
mod for_loop;
pub mod foreach;
pub mod formula;
mod held;
mod listed;
pub mod pair;
pub mod switch;
mod table;
mod while_loop;

pub use begun::Begun;
use code::Made;
pub use held::Held;
use state::Outcome;
use std::alloc::Allocator;
pub use table::{Control, begin, call, resumed};

/// How far a call of a procedure, or a command that runs scripts or formulas, has come; `H` is what
/// it holds meanwhile.
#[derive(Drop)]
pub enum Nesting<A: Allocator, H: Drop> {
    /// The command is over.
    Has(Outcome<A>),
    /// A script or a formula runs, in which as many levels may still stand as the number says; its
    /// outcome goes to what is held.
    Runs(Made<A>, u8, H),
}

//! The operators and functions of formulas, on values (expr(n), mathfunc(n)).
#![tactic(auto)]

mod apply;
mod arithmetic;
mod division;
mod functions;
pub mod laws;
mod members;
mod numbers;
mod numeric;
mod operand;
mod ordering;
mod shifts;
mod truths;
mod values;

pub use apply::{binary, unary};
pub use functions::call;
pub use numeric::{holds, of_both, of_one, told};
pub use operand::{Operand, number_in};
pub use truths::truth;
pub use values::{result, written};

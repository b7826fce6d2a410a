//! Scripts as flat code: instructions that stand one after the other, made once from a script's
//! tree.
#![tactic(auto)]

mod argument;
mod arms;
pub mod branches;
mod catch;
mod conditional;
mod direct;
mod doing;
mod each;
mod emit;
mod evaluate;
mod formula;
mod inner;
mod instruction;
mod literal;
mod made;
mod nest;
mod options;
mod own;
mod repeat;
mod switch;
mod whole;

pub use argument::is_braced;
pub use doing::Doing;
pub use instruction::Instruction;
pub use literal::texts_of;
pub use made::{CodedArgument, CodedFormula, CodedScript, Entry, Made};
pub use options::{Flag, Options};
pub use whole::{argument_code, code_of, formula_code};

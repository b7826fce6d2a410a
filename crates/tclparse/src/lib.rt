//! The grammar of scripts: a text is read as a tree of commands, which consist of words, which
//! consist of parts, up to the text's end or its first fault.
#![tactic(auto)]

mod braces;
mod context;
mod error;
mod fault;
mod gap;
pub mod laws;
mod name;
pub mod operand;
mod operator;
mod piece;
mod read;
mod script;
mod shared;
mod tree;
mod variable;
mod word;
mod words;

pub use error::ReadError;
pub use fault::Fault;
pub use name::{Name, holds_colons, variable_name};
pub use operator::{Binary, Function, Infix, Unary};
pub use read::MAX_OPEN;
pub use script::Script;
pub use tree::{Command, Part, Word};
pub use variable::split_name;
pub use words::Words;

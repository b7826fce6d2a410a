//! The state of scripts: scopes of variables, and procedures.
#![tactic(auto)]

mod content;
mod error;
mod formals;
mod frame;
mod globals;
mod local;
mod procs;
mod scopes;
mod sum;
mod table;

pub use error::ScopeError;
pub use formals::{Formal, Formals, FormalsError};
pub use frame::LocalFrame;
pub use procs::{Procedure, Procs};
pub use scopes::Scopes;

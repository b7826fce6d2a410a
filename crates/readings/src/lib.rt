//! What the words of `expect` and its kin say: branches, or the first error in them.
#![tactic(auto)]

mod branch_error;
mod branches;
mod draft;
mod id_list;
pub mod laws;
mod reading;
mod sign;

pub use branch_error::BranchError;
pub use branches::Branches;
pub use draft::push_ids;
pub use id_list::first_shut;
pub use sign::{Keyword, Mark, Sign};

//! The result of a function of texts: a value or an error, or what follows once a text is read as a
//! list or a pattern is matched against one.
#![tactic(auto)]

mod boolean;
pub mod laws;
mod list;

pub use boolean::truth;
pub use list::{element_at, elements, joined, list_len, list_of, no_list, range_of};

//! Lists: reading a text as a list, and writing a list as a text.

mod element;
mod fault;
mod join;
mod split;
pub(crate) mod taken;
mod values;
mod walk;

pub use fault::ListFault;
pub use join::{join_list, join_values, push_element};
pub use split::{split_list, split_values};

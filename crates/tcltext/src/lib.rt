//! Reading and writing of texts: escapes, braces that pair up, lists and numbers.
#![tactic(auto)]

pub mod braces;
mod digit;
pub mod escape;
mod int;
mod kept;
mod kept_element;
mod kept_elements;
pub mod laws;
mod list;
mod number;
mod short;
mod value;
mod white;

pub use list::{ListFault, join_list, join_values, push_element, split_list, split_values};
pub use number::{print_int, print_nat, read_int};
pub use value::Value;

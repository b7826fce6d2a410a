//! Why a wait failed: what was heard of each id, what a branch sought in vain and for which cause,
//! and how that is written in lines of plain English.
#![tactic(auto)]

mod cause;
mod heard;
mod lens;
mod line;
mod nearest;
mod past;
mod search;
mod shape;
mod sought;
mod spelling;
mod tape;
mod telling;
mod track;
mod vain;
mod why;
mod window;

pub use cause::Cause;
pub use heard::{Heard, MOST_IDS, MOST_KEPT};
pub use line::push_line;
pub use past::came_later;
pub use sought::{Sought, Style, push_sought};
pub use spelling::{push_shortened, push_spelled};
pub use telling::push_why;
pub use vain::{Ending, Vain};
pub use why::{Difference, Why, why_in_vain};

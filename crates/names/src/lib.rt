//! How a text is compared with names: what a `match` on byte strings tests is what the definitions
//! say.
#![tactic(auto)]

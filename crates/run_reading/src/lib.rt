// What is read after the check: an image that passed it, by where its parts stand.
#![tactic(auto)]

pub mod env;
pub mod instruction;
pub mod kind;

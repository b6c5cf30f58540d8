// Refusals 9 and 10: instructions and the other parts of a body, and the functions that they name.
#![tactic(auto)]

pub mod form;
pub mod instruction;
mod item;
pub mod marks;
pub mod read;

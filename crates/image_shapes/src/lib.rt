// Refusals 7 and 8: the types and the shapes.
#![tactic(auto)]

pub mod shapes;
pub mod types;

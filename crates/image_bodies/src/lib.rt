// Refusals 9 and 10: the bodies of functions.
#![tactic(auto)]

mod body;
pub mod nesting;
pub mod overlap;

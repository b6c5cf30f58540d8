// Numbers for the names of property rows, so that equal names are found in one pass.
#![tactic(auto)]

pub mod blocks;
pub mod numbering;
pub mod reach;

// The header: the places of its words that are of no table, its length, and what its words have to be.
pub const VERSION: usize = 0;

pub const OPTIONS: usize = 1;

pub const HOOK_TYPE: usize = 2;

pub const LENGTH: usize = 19;

pub const WORDS: usize = 20;

pub const VERSION_ONE: u32 = 1;

// All option bits.
pub const ALL_OPTIONS: u32 = 3;

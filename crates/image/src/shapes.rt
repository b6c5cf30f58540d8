// The shapes that every image has: the Rust's names of them.
pub const BUILT_IN_PROPS_ID: u32 = 0;

pub const BUILT_IN_USE_REF_ID: u32 = 1;

pub const BUILT_IN_SET_STATE_ID: u32 = 2;

pub const BUILT_IN_OBJECT_ID: u32 = 3;

pub const BUILT_IN_ARRAY_ID: u32 = 4;

pub const BUILT_IN_FUNCTION_ID: u32 = 5;

pub const BUILT_IN_JSX_ID: u32 = 6;

pub const BUILT_IN_REF_VALUE_ID: u32 = 7;

pub const BUILT_IN_MIXED_READONLY_ID: u32 = 8;

// How many of them there are.
pub const COUNT: u32 = 9;

// The first word of a shape's row.
pub const ABSENT: u32 = 0;

pub const PRESENT: u32 = 1;

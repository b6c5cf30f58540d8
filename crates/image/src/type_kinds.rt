// The kinds of types: `Type`, a Function with `is_constructor` apart.
pub const VAR: u32 = 0;

pub const PRIMITIVE: u32 = 1;

pub const POLY: u32 = 2;

pub const OBJECT_METHOD: u32 = 3;

pub const OBJECT: u32 = 4;

pub const FUNCTION: u32 = 5;

pub const CONSTRUCTOR: u32 = 6;

pub const PHI: u32 = 7;

// The most words of a type, written out.
pub const LONGEST: u32 = 4096;

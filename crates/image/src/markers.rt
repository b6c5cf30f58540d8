// What the first word of a body, of a parameter and of a terminal says, and how many values it has.

// `fn_type`
pub const COMPONENT: u32 = 0;

pub const HOOK: u32 = 1;

pub const OTHER: u32 = 2;

pub const FN_TYPES: u32 = 3;

// A parameter: a place, or a spread.
pub const PLACE_PARAM: u32 = 0;

pub const SPREAD_PARAM: u32 = 1;

pub const PARAM_KINDS: u32 = 2;

// The terminal of a block: whether it is a Return.
pub const NO_RETURN: u32 = 0;

pub const RETURN: u32 = 1;

pub const TERMINALS: u32 = 2;

/// The greatest depth of a term, and the most brackets that may be open at a token.
pub const DEEPEST: u64 = 4096;

/// The most arguments of a compound.
pub const MOST_ARGUMENTS: u64 = 255;

/// The greatest priority of a clause and of a term in brackets.
pub const GREATEST: u16 = 1200;

/// The greatest priority of an argument and of a list element.
pub const ARGUMENT: u16 = 999;

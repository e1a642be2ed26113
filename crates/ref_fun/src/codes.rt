//! The codes of Core's functions and predicates, as constants. [`code_of`](crate::code_of) finds them by name.

/// `+`
pub const PLUS: u32 = 1;

/// `-`
pub const MINUS: u32 = 2;

/// `inc`
pub const INC: u32 = 3;

/// `dec`
pub const DEC: u32 = 4;

/// `max`
pub const MAX: u32 = 5;

/// `min`
pub const MIN: u32 = 6;

/// `conj`
pub const CONJ: u32 = 7;

/// `assoc`
pub const ASSOC: u32 = 8;

/// `dissoc`
pub const DISSOC: u32 = 9;

/// `disj`
pub const DISJ: u32 = 10;

/// `>=`
pub const AT_LEAST: u32 = 101;

/// `<=`
pub const AT_MOST: u32 = 102;

/// `=`
pub const EQUALS: u32 = 103;

/// `int?`
pub const IS_INT: u32 = 104;

/// `string?`
pub const IS_STRING: u32 = 105;

/// `vector?`
pub const IS_VECTOR: u32 = 106;

/// `map?`
pub const IS_MAP: u32 = 107;

/// `set?`
pub const IS_SET: u32 = 108;

/// `some?`
pub const IS_SOME: u32 = 109;

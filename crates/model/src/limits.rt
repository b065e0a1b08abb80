// The limits of the language: what a program keeps to that is not refused.

/// The largest size: one for each part of a program.
pub const MAX_SIZE: usize = 8192;

pub const MAX_FUNCTIONS: usize = 256;

/// Expressions in one another, and commands in one another; what stands innermost doesn't count.
pub const MAX_DEPTH: u32 = 32;

/// Arguments of a function, and results.
pub const MAX_ARGUMENTS: u32 = 8;

/// Variables of a function, of which the first are its arguments.
pub const MAX_VARIABLES: u64 = 256;

/// Doors have numbers below this.
pub const DOORS: u64 = 256;

/// Words are numbers below this.
pub const WORDS: u64 = 1 << 32;

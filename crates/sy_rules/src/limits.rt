//! The limits of a relay.

/// The most inputs of a file.
pub const INPUTS: usize = 64;

/// The most rulesets of a file.
pub const RULESETS: usize = 256;

/// The most actions of a file.
pub const ACTIONS: usize = 256;

/// The most workers of all queues.
pub const WORKERS: u32 = 256;

/// The most statements of a list, where what replaces a call counts.
pub const STATEMENTS: u32 = 65_536;

/// The most occurrences of a list.
pub const OCCURRENCES: u32 = 64;

/// How deep calls made at once may lie in one another.
pub const CALL_DEPTH: u32 = 16;

/// How many lists may lie in one another: one, and those that are called at once.
pub const LISTS_DEEP: u32 = 17;

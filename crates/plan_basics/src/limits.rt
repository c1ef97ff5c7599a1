//! The limits of a plan, of what it holds and of the requests to it. Code and definitions cite them by these names; all
//! are this project's own.

/// How many workstations a plan may hold. (This project's own.)
pub const MOST_WORKSTATIONS: usize = 99;

/// How many open intervals a workstation may have. (This project's own.)
pub const MOST_INTERVALS: usize = 400;

/// How many special resources a plan may hold. (This project's own.)
pub const MOST_RESOURCES: usize = 999;

/// How many occurrences a plan may hold, the deleted ones counted. (This project's own.)
pub const MOST_OCCURRENCES: usize = 5_000;

/// How many operations a plan may hold, the deleted ones counted. (This project's own.)
pub const MOST_OPERATIONS: usize = 20_000;

/// How many dependencies a plan may hold, each a pair of operations, those of deleted ones counted. (This project's own.)
pub const MOST_PAIRS: usize = 100_000;

/// How many special resources an operation may need. (This project's own.)
pub const MOST_NEEDS: usize = 16;

/// The greatest quantity of a special resource, and the greatest amount that a shared need takes of it. (This project's own.)
pub const MOST_QUANTITY: u32 = 999_999;

/// How many parallel servers an open interval may have. (This project's own.)
pub const MOST_SERVERS: u8 = 99;

/// How much of a fixed resource, R1 or R2, an open interval may have or an operation may need. (This project's own.)
pub const MOST_FIXED: u8 = 99;

/// The shortest duration of an operation, in minutes. (This project's own.)
pub const SHORTEST_DURATION: u16 = 1;

/// The longest duration of an operation, in minutes. (This project's own.)
pub const LONGEST_DURATION: u16 = 5_999;

/// The lowest priority of an occurrence. (This project's own.)
pub const LOWEST_PRIORITY: u8 = 1;

/// The highest priority of an occurrence, which is urgent. (This project's own.)
pub const HIGHEST_PRIORITY: u8 = 9;

/// The least number of an operation in its occurrence. (This project's own.)
pub const LEAST_NUMBER: u8 = 1;

/// The greatest number of an operation in its occurrence. (This project's own.)
pub const GREATEST_NUMBER: u8 = 255;

/// How many trackers a desk may keep a receipt of. (This project's own.)
pub const MOST_TRACKERS: usize = 64;

/// The greatest number that a tracker may give to a request. (This project's own.)
pub const GREATEST_REQUEST_NUMBER: u32 = 999_999_999;

/// How long the text of a numbered request may be, in bytes. (This project's own.)
pub const LONGEST_REQUEST_TEXT: usize = 65_536;

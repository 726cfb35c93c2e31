// Document 01's limits on a problem, and the room that they call for.

pub const LARGEST_PROBLEM: usize = 4096;

pub const MAX_CONSTRAINTS: usize = 16;

// The entries of a table with room for every problem: a node takes three bytes or more.
pub const TABLE_ROOM: usize = 1366;

// Document 01's limits on one field.

pub const MAX_DEPTH: usize = 32;

// The first number of a symbol that has four bytes (T-05).
pub const FIRST_WIDE: u32 = 65536;

// Metavariables are numbered from 0.
pub const METAVARIABLES: u8 = 32;

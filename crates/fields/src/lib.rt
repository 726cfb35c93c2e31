// One field of the input: what its tag allows where it stands, and what the fixed part of its content says.
#![tactic(auto)]

pub mod field;
pub mod limit;
pub mod node;
pub mod number;

// The text of a row, from the tables: what it has for each metavariable, how long it is, its bytes.
#![tactic(auto)]

pub mod entry;
pub mod text;

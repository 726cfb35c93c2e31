// Reads one term into a table of tokens.
#![tactic(auto)]

pub mod term;

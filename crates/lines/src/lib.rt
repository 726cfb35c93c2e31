// Lines of text, as the programs that run examples read and print them.
#![tactic(auto)]

pub mod input;
pub mod output;

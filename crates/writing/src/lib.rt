// Writing the text of a solution row.
#![tactic(auto)]

pub mod write;

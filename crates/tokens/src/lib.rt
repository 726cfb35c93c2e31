// One token for each node of a term, and equality of subterms over a table of tokens.
#![tactic(auto)]

pub mod same;
pub mod token;

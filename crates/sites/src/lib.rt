// Where a term stands, and the token of a node that stands there.
#![tactic(auto)]

pub mod site;

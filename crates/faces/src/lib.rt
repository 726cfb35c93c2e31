// From the two token tables of a problem: the lockstep walk, the functions' faces, and refusals 13 and 14.
#![tactic(auto)]

pub mod check;
pub mod first;
pub mod walk;

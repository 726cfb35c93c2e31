// A number for each node of a table, the same for two nodes exactly when their subterms are equal (T-08): made once, and then asked in place
// of comparing subterms. What a number is, and what is asked of it, is specs/Tests; how they are made, specs/Alike and specs/Numbering.
#![tactic(auto)]

pub mod ask;
pub mod make;

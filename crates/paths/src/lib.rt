// The mathematics of choices as paths: what a path through the nodes of a face is (specs/), and that the paths are document 01's choices in
// their order (proofs/). There is no code here.
#![tactic(auto)]

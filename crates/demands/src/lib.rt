// The mathematics of testing a row: what it demands (specs/), and that this is document 01's test (proofs/). There is no code here.
#![tactic(auto)]

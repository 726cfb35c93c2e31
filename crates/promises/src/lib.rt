// The promises: no code.
#![tactic(auto)]

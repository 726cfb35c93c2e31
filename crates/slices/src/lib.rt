// Laws of slices: what a lent part is, and what stands in the whole when it comes back. There is no code here.
#![tactic(auto)]

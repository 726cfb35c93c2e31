// Worked examples of document 01 and of its source documents, computed from the definitions of `meaning`: a crate of their own, so that no
// must-fail edit of `meaning` computes them again. There is no code here.
#![tactic(auto)]

// No code: the specification of the figures over a night's replies (specs/), and its theorems
// (proofs/).
#![tactic(auto)]

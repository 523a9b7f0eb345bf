// Whole calls, accepted and refused, that are computed from the definitions of `rules` with the
// real SHA-256. No code: the theorems are in proofs/.
#![tactic(auto)]

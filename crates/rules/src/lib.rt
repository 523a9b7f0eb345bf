// Paper 01 as definitions, and the two claims of demand 3. No code: the verifier's contracts cite
// these definitions.
#![tactic(auto)]

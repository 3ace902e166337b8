// The clusters of a list of active bonds, as definitions and theorems: specs/ and proofs/ alone.
#![tactic(auto)]

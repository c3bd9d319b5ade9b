// Theorems about the specification: see specs/ and proofs/.

#![tactic(auto)]

// Demand 3 of the eight calls, as a theorem about the functions of `engine`: specs/ and proofs/.

#![tactic(auto)]

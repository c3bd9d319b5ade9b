// Room for every list of calls, as a theorem about the functions of `engine`: specs/ and proofs/.

#![tactic(auto)]

// Demand 3 on worked examples. No code.

#![tactic(auto)]

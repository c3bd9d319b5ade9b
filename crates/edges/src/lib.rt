// The worked examples of document 01, as theorems about the specification. No code.

#![tactic(auto)]

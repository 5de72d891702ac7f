// No functions: demand 3 over words and bytes.
#![tactic(auto)]

// No functions: demand 3 of the exported calls, over words.
#![tactic(auto)]

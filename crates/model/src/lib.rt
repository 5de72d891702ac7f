// No functions: the plain converter that document 01 describes, and what is proved of it, in specs/ and proofs/.
#![tactic(auto)]

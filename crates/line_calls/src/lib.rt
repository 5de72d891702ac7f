// No functions: what a tree call leaves whose line rows are one lent list, and that it is a tree call.
#![tactic(auto)]

// No functions: scratch memory of a tree call, and the loops over it, for any machine of the crate model. The crate writer cites these.
#![tactic(auto)]

// No functions: the original's last end, and that the file without it is the original's.
#![tactic(auto)]

// No functions: what the reader finds in the bytes of a file that was written.
#![tactic(auto)]

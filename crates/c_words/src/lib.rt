// Words at the C boundary: the record of the converter and the length of a file. The definitions of its C calls stand in specs/: Record, Writing.
#![tactic(auto)]

pub mod file;
pub mod record;

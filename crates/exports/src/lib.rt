// The interface for C and Rust: the converter, the writer, the reader and the lookup under C names, over numbers and slices alone.
// Every function takes any content and any length. A word that a lent slice lacks is read as 0, and one that it has no room for is not stored.
#![tactic(auto)]

pub mod lines;
pub mod reading;
pub mod writing;

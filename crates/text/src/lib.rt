// Texts as a SymCache stores them: LEB128 (DWARF 5, section 7.6), UTF-8 (RFC 3629), and a text read at an offset.
#![tactic(auto)]

pub mod leb128;
pub mod strings;
pub mod utf8;

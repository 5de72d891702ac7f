// The converter: writer.rs, `SymCacheConverter`, over lent tables. Its record is lent too, and changed in place.
#![tactic(auto)]

mod ahead;
pub mod calls;
mod lines;
mod stack;
mod tree;

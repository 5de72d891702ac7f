// What was added to the lent tables since a mark can be taken back: each table is to the word what it was. Rows and texts go by their counts; the ranges,
// whose rows change in place, by a journal of what was there. No caller uses it yet.
#![tactic(auto)]

pub mod ranges;
pub mod undo;

// The check of an index in one pass: one selector, and a segment. Apart from the call, so that an edit checks little.
#![tactic(auto)]

pub mod segment;
pub mod selector;

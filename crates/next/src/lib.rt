// Going on from a cursor to the next visible record (docs/RULES.md, "Reading through an index").
#![tactic(auto)]

pub mod calls;
pub mod next;

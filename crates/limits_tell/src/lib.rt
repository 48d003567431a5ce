// What the limits (docs/RULES.md, "Run by a program") are run with: trays filled by number, and each public call told in a line.
#![tactic(auto)]

pub mod fill;
pub mod tell;

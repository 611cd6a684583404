// The lines of tasks and the rows of `trace`, written into a lent buffer (docs/DECISIONS.md, "What `trace` prints").
#![tactic(auto)]

pub mod lines;
pub mod trace;

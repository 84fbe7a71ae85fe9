// The sums of a stretch of bytes.
#![tactic(auto)]

pub mod columns;
pub mod stretches;

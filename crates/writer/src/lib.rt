// The lines of an answer.
#![tactic(auto)]

pub mod joins;
pub mod lines;

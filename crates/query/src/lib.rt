// The questions that a checked query answers.
// A question about a graph takes it as one value, whose four lent lists are good; what an answer means stands in crate rules.
#![tactic(auto)]

pub mod connected;
pub mod edges;
pub mod graph;
pub mod lists;

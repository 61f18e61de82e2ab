// The graph as neighbour sets, and what they say of chosen tables.
#![tactic(auto)]

pub mod chosen;
pub mod near;

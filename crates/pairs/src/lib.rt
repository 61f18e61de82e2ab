// A worker's next joinable pair: the search through the candidates of a group from a place on.
#![tactic(auto)]

pub mod find;
pub mod footing;

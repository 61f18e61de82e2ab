// The turns in a row, group after group.
#![tactic(auto)]

pub mod search;

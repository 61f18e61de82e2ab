// A line of the text: its fields, their numbers, and what the line is.
#![tactic(auto)]

pub mod kinds;
pub mod lines;
pub mod numbers;

// A pair's result: its price, and what its row keeps.
#![tactic(auto)]

pub mod keep;
pub mod price;

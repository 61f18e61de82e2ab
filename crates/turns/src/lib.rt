// One turn: its worker's next joinable pair is handed and priced, and the worker goes on to the next. What stands before the first.
#![tactic(auto)]

pub mod scans;
pub mod setting;
pub mod turn;

// How many rows of each size the memo has, and how many rows and skip cells in all.
// A walk goes through the tables upwards; each table is first taken into the chosen set, then left out of it.
#![tactic(auto)]

pub mod tally;

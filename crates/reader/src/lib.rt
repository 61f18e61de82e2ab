// The text's reader: bytes to columns of records, or the first refusal of 21 to 25.
#![tactic(auto)]

pub mod columns;
pub mod reading;

// Laying out the memo, all of it at once.
#![tactic(auto)]

pub mod layout;
pub mod lent;

// The verdict on a delivery and its line.
#![tactic(auto)]

pub mod judge;
pub mod line;

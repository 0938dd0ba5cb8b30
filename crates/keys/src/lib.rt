// Keys and references: reasons 30, 40 and 41.
#![tactic(auto)]

pub mod group;
pub mod over;
pub mod refer;
pub mod repeat;

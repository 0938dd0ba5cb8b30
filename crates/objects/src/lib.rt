// The rules of objects as a whole, reason 70: the tally of each file's rules, and the first break of a delivery.
#![tactic(auto)]

mod composites;
pub mod group;

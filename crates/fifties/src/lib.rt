// The fifties as a group: the tally of each file's rules, and the first break of a delivery.
#![tactic(auto)]

pub mod group;
mod lines;
mod nodes;
mod room;

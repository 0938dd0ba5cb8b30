// The record layer: the kinds of file, the rules of a file's shape and of its fields (reasons 10, 11 and 20 to 25), and what the
// records of a file say, for the layers above.
#![tactic(auto)]

pub mod check;
pub mod columns;
pub mod count;
pub mod cut;
pub mod files;
pub mod fill;
mod glance;
pub mod kind;
pub mod names;
pub mod reason;
mod rules;
mod table;

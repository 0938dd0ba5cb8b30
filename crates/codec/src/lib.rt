// One record of any of the eight files, read as values and written from values.
#![tactic(auto)]

pub mod held;
pub mod read;
mod refuse;
pub mod values;
pub mod write;

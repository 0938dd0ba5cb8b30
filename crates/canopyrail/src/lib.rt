// The library as C and Rust link it: a delivery judged, all its breaks counted, one record read, one record written, and the table of the files. Numbers and
// lent slices only; each call is thin over the crate that does the work. include/canopyrail.h says the same to a C reader.
#![tactic(auto)]

pub mod answer;
pub mod delivery;
pub mod grid;
pub mod one;
pub mod table;
pub mod version;

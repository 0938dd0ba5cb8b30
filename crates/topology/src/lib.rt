// Topology: vertex numbering, line ends and nodes, objects in use. Reasons 50 to 59.
//
// Columns stand in arrays that are lent, of which the first n places are in use and n goes beside them: memory is fixed, with no heap.
#![tactic(auto)]

mod each;
pub mod ends;
pub mod nodes;
pub mod orders;
pub mod places;
pub mod sorts;
pub mod spots;
mod spotted;
pub mod tops;
pub mod used;

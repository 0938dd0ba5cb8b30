// All breaks of a delivery, counted: the grid of a delivery, its rows as the program prints them, and grids added.
#![tactic(auto)]

pub mod grid;
pub mod rows;
pub mod sum;

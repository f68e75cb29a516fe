//! Gridded permutations: a permutation of at most nine letters, each point in a cell of a grid, such that
//! columns never fall from left to right and rows never fall from low to high letters (docs/RULES.md, "Gridded
//! permutations").
//!
//! Contracts see a gridded permutation as the list of its points from left to right, and a set of cells as the
//! ascending list of its cells. The definitions stand in `specs/`.
#![tactic(auto)]

mod axis;
mod cell;
mod cell_set;
mod compared;
mod digest;
mod fault;
mod fit;
mod free;
mod gridded;
mod hold;
mod key;
mod laws;
mod number;
mod part;
mod set_cells;
mod small;
mod smaller;
#[cfg(test)]
mod tests;

pub use axis::Axis;
pub use cell::Cell;
pub use cell_set::CellSet;
pub use fault::GriddedFault;
pub use gridded::Gridded;
pub use hold::holds;
pub use laws::gridded_permutations_are_listed_once;
pub use smaller::{restrict, without};

//! Maps of grids that cut a column and a row into parts (docs/RULES.md, "Grid maps").
#![tactic(auto)]

mod collapsing;
mod counting;
mod grid_map;
mod laws;
mod line_map;
mod listing;
mod stretching;

pub use collapsing::collapse;
pub use counting::preimage_count;
pub use grid_map::GridMap;
pub use laws::{preimages_are_listed_once, stretch_keeps_members};
pub use line_map::LineMap;
pub use listing::{add_preimages, add_preimages_outside, preimages};
pub use stretching::stretch;

#[cfg(test)]
mod tests;

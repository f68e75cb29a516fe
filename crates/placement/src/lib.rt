//! Placements of points: where they apply, their children, and those that are tried on a tiling
//! (docs/RULES.md, "Kinds of rules").
#![tactic(auto)]

mod alone;
mod barred;
mod child;
mod children;
mod condition;
mod counting;
mod directions;
mod distinct;
mod lifting;
mod lines;
mod listing;
mod map_around;
mod places;
mod staying;
#[cfg(test)]
mod tests;
mod thinned;

pub use children::{build, placed, placed_thinned};
pub use condition::can_place;
pub use lines::{columns, rows};
pub use places::points;

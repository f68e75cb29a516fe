//! The normal form of a tiling: steps as long as one applies (docs/RULES.md, "Reduction steps").
#![tactic(auto)]

mod first;
mod form;
mod known;
mod law;
mod lines;
mod required;
mod thinned;

pub use form::normalise;
pub use law::{replays_keep_members, steps_shrink, traces_are_determined};
pub use required::required_cells;
pub use thinned::normalise_thinned;

#[cfg(test)]
mod tests;

//! Tilings: a grid, obstructions and lists of requirements, all made of gridded permutations
//! (docs/RULES.md, "Tilings"). A member is a gridded permutation in the grid that holds no obstruction and
//! holds a pattern of each requirement list.
#![tactic(auto)]

mod active_cells;
mod laws;
mod made;
mod measures;
mod membership;
mod outside;
mod parts;
mod singles;
#[cfg(test)]
mod tests;
mod tiling;

pub use active_cells::active;
pub use laws::{
    counts_add_up, insertion_adds_up, membership_is_decided, minimal_obstructions_suffice,
    root_counts_avoiders, single_tilings,
};
pub use made::read_patterns;
pub use measures::{positive, weight};
pub use membership::{holds_one, member};
pub use outside::TilingFault;
pub use tiling::Tiling;

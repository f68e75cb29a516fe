//! The law of placements: the members of a tiling that hold a pointed pattern are told by their farthest pointed
//! point, and are carried one to one to those of the child of its cell.
#![tactic(auto)]

mod law;

pub use law::placements_carry_members;

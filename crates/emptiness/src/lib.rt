//! Whether a tiling has a member, and which patterns of one or two points no member holds
//! (docs/RULES.md, "Emptiness"). Both are decided by glueing: a member that holds no more than it needs is
//! made of one occurrence for each requirement list, so it is found by putting a pattern of one list after
//! another into a gridded permutation, each point at every place or on a point that is there.
#![tactic(auto)]

mod by_cell;
mod candidates;
mod empty;
mod fault;
mod glueing;
mod inferable;
mod inferral;
mod insertion;
#[cfg(test)]
mod tests;

pub use empty::{is_empty, members_within_weight};
pub use fault::{EmptyFault, InferFault};
pub use inferable::is_inferable;
pub use inferral::inferred;

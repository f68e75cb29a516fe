//! Permutations of at most nine letters: containment, the words of a basis, and the plain count of
//! avoiders (docs/RULES.md, "Permutations and patterns").
#![tactic(auto)]

mod basis;
mod compared;
mod contain;
mod flaw;
mod law;
mod perm;
mod standard;
mod tally;

pub use basis::{BasisFault, read_basis};
pub use contain::contains;
pub use law::perms_are_those_listed;
pub use perm::{Perm, PermFault};
pub use standard::{DigitFault, standardise};
pub use tally::count_avoiders;

#[cfg(test)]
mod tests;

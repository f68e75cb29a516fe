//! Which classes stand among records, with their ranks and picks; specifications, and the one that a
//! ledger's picks make (docs/RULES.md, "Standing, ranks and picks").
#![tactic(auto)]

mod entry;
mod faults;
mod gift;
mod order;
mod picked;
mod pruned;
mod pruner;
#[cfg(test)]
mod pruner_tests;
mod reading;
mod round;
mod spec;
#[cfg(test)]
mod spec_tests;
#[cfg(test)]
mod tests;
mod waiting;

pub use entry::Entry;
pub use faults::SpecFault;
pub use picked::extract;
pub use pruned::{Pruned, prune};
pub use pruner::Pruner;
pub use spec::Spec;

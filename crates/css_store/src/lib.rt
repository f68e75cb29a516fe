//! A ledger and its log under one lock (docs/RULES.md, "The store"). Workers claim classes and file their rules;
//! one searcher reads the words of the records with no lock.
//!
//! The desk is what lies under the lock. Its calls wait for nobody and say exactly when each answer comes; each
//! critical section of a call of the store makes one of them.
#![tactic(auto)]

mod answers;
mod desk;
mod name;
#[cfg(test)]
mod shapes_tests;
mod store;
#[cfg(test)]
mod tests;
mod words;

pub use answers::{DeskClaim, Growth, StoreClaim, Unfiled};
pub use desk::Desk;
pub use name::StoreName;
pub use store::{Closed, Store};

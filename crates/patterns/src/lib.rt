//! The definitions that all crates share: permutations of a length, occurrences of a pattern and
//! avoiders (docs/RULES.md, "Permutations and patterns").
//!
//! Definitions stand in `specs/`, their laws in `proofs/`. The functions here are the test that every
//! search for an occurrence makes at each point, and laws, which compute nothing.
#![tactic(auto)]

mod laws;
mod search;

pub use laws::{containment_is_decided, permutations_are_listed_once};
pub use search::fits_next;

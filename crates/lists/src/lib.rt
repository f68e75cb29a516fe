//! What is said of lists in general: what is in one, that nothing stands in one twice, parts, words, tests
//! of all items and of some item, first places, unions and products of lists with their counts, and lists
//! that grow by what is new.
//!
//! Definitions stand in `specs/`, their laws in `proofs/`. The functions are laws that compute nothing.
#![tactic(auto)]

mod laws;

pub use laws::{choices_are_counted, part_is_at_rising_places};

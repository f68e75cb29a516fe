//! The terms of a basis: the capped numbers of the permutations that avoid it (docs/RULES.md, "Terms").
#![tactic(auto)]

mod laws;

pub use laws::exact_terms_are_avoiders;

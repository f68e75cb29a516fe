//! Packs of letters, and the complete filing of a tiling for a pack (docs/RULES.md, "Kinds of rules").
#![tactic(auto)]

mod choice;
mod expansion;
mod filed;
#[cfg(test)]
mod kinds_tests;
mod lines;
mod once;
mod pack;
#[cfg(test)]
mod strategies_tests;
#[cfg(test)]
mod tests;

pub use expansion::expand;
pub use pack::Packs;

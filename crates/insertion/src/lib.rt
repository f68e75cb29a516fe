//! Insertions of points: where they are tried, and their children (docs/RULES.md, "Kinds of rules").
#![tactic(auto)]

mod children;
mod listing;
#[cfg(test)]
mod tests;

pub use children::{build, can_insert, inserted};
pub use listing::arguments;

//! Containment kernels: whether a word contains a pattern of 1 to 4 letters, without and with cells, by
//! loops made for each length (docs/RULES.md, "Permutations and patterns").
#![tactic(auto)]

mod cells;
mod letters;
mod search;
#[cfg(test)]
mod tests;

pub use cells::occurs_cells;
pub use letters::occurs;

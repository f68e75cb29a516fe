//! Factorings of a tiling: where sets of its cells make one, the factors, and the finest one (docs/RULES.md, "Kinds of
//! rules").
#![tactic(auto)]

mod cells;
mod children;
mod condition;
mod finest;
mod growing;
mod lines;
mod sharing;
#[cfg(test)]
mod tests;

pub use children::{build, factored};
pub use condition::can_factor;
pub use finest::parts;

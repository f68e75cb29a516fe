//! Separation of rows and of columns: where a line is cut in two, the cuts that are tried, and their children
//! (docs/RULES.md, "Kinds of rules"). Rows and columns are one piece of code, by the axis.
#![tactic(auto)]

mod bound;
mod children;
mod condition;
mod least;
mod lines;
mod room;

pub use children::{build, cut_in_two};
pub use condition::can_cut;
pub use least::{columns, rows};

#[cfg(test)]
mod tests;

//! Terms of a counting sequence, capped at 2^128, and their evaluation over the entries of a specification
//! (docs/RULES.md, "Terms").
#![tactic(auto)]

mod evaluate;
mod laws;
mod order;
mod rows;
mod series;
mod spec_terms;
mod term;
#[cfg(test)]
mod tests;
mod value;

pub use evaluate::terms_of_rows;
pub use laws::specs_have_rows;
pub use rows::Row;
pub use spec_terms::{rows_of, terms};
pub use term::Term;

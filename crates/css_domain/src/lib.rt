//! What the exploration knows of classes and rules: the trait `Domain` with its meanings and laws, the
//! shapes of rules, records and filings. Nothing here knows a tiling (docs/RULES.md, "Classes, rules and
//! counts").
//!
//! The definitions that the crates above share stand in `specs/`: how counts combine, which classes stand
//! among records, specifications, the ledger machine and the reasons of an answer.
#![tactic(auto)]

mod domain;
mod filing;
mod filing_words;
mod laws;
mod record;
mod shape;
#[cfg(test)]
mod tests;
mod word_view;

pub use domain::Domain;
pub use filing::Filing;
pub use laws::{counts_are_determined, filed_specs_stand};
pub use record::Record;
pub use shape::{Shape, same_length};
pub use word_view::WordView;

//! An independent checker of written specifications (docs/FORMATS.md, "What the checker does"): it reads the bytes
//! alone and shares no step with the search.
#![tactic(auto)]

mod checking;
mod counts;
mod law;
#[cfg(test)]
mod longer_tests;
mod named;
#[cfg(test)]
mod piece_tests;
mod ranks;
mod root;
mod rules;
#[cfg(test)]
mod tests;
mod verdict;

pub use checking::{Checking, check, checked};
pub use law::{counts_are_by_rules, verdicts_are_one};
pub use verdict::{CheckFault, Checked};

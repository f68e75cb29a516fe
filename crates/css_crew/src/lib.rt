//! Filling a ledger until a specification stands, or nothing is left to file, by one worker or by several (docs/RULES.md,
//! "One worker", "Several workers").
#![tactic(auto)]

mod alone;
mod crew;
#[cfg(test)]
mod crew_tests;
mod expander;
mod finish;
mod gate;
mod laws;
mod next;
mod reason;
mod root;
mod searcher;
#[cfg(test)]
mod tests;
mod waiting;
mod worker;

pub use alone::{Solved, solve_alone};
pub use crew::solve;
pub use expander::Expander;
pub use gate::{Gate, NoGate};
pub use laws::picks_are_filed;
pub use reason::Reason;

//! The steps of a reduction, and their replay (docs/RULES.md, "Reduction steps").
#![tactic(auto)]

mod applied;
mod clean_step;
mod fault;
mod law;
mod line_step;
mod list_step;
mod min_step;
mod pattern;
mod replayed;
mod step;
#[cfg(test)]
mod tests;
mod void_step;

pub use applied::{applies, apply, follow};
pub use fault::{ReplayFault, StepFault};
pub use law::steps_keep_members;
pub use replayed::replay;
pub use step::Step;

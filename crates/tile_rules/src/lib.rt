//! The rules on tilings: their kinds, where each applies, its children and its counts (docs/RULES.md,
//! "Kinds of rules").
#![tactic(auto)]

mod check;
mod condition;
mod inferral;
#[cfg(test)]
mod kinds_tests;
mod law;
mod raw;
mod root;
mod rule;
#[cfg(test)]
mod tests;
mod tiles;
#[cfg(test)]
mod tiles_tests;

pub use check::check_rule;
pub use condition::applies;
pub use law::{members_are_carried, rules_count};
pub use raw::{children_of, raw_children};
pub use root::root_raw;
pub use rule::TileRule;
pub use rule_kinds::{Direction, Kind, Pointed, RawFault, also};
pub use tiles::Tiles;

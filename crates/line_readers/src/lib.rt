//! Readers of single lines of a specification's text, each without its line feed (docs/FORMATS.md, "The text of a
//! specification").
#![tactic(auto)]

mod ascending;
mod cells;
mod class_lines;
mod cuts;
mod digit_set;
mod fault;
mod kinds;
mod lines;
mod narrow;
mod numbers;
mod pattern;
mod pattern_list;
mod pointed;
mod rule_lines;
mod spelt;
mod ten_cells;
mod term;
#[cfg(test)]
mod tests;
mod trace;
#[cfg(test)]
mod value_tests;
mod words;

pub use class_lines::{obs_line, req_line};
pub use cuts::cut;
pub use fault::ItemFault;
pub use lines::{announced, basis_line, entries_line, entry_line, grid_line, root_line, to_line};
pub use numbers::Number;
pub use rule_lines::{rule_children, rule_line};
pub use term::terms_line;

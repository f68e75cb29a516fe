//! The text of a specification: how its lines are written, and how it is read (docs/FORMATS.md, "The text of a
//! specification").
#![tactic(auto)]

mod class;
mod entry;
mod families;
mod file;
mod kinds;
mod law;
#[cfg(test)]
mod line_tests;
mod points;
#[cfg(test)]
mod read_tests;
mod sets;
mod spell;
#[cfg(test)]
mod tests;
mod traces;
mod whole;

pub use class::put_class;
pub use entry::put_rule;
pub use file::{SpecFile, finish_spec, read_spec};
pub use law::{
    file_texts_are_read, files_have_one_text, joined_entries_are_told, lines_are_answered,
    specs_are_spelled, written_specs_are_read_back,
};
pub use line_readers::{
    ItemFault, basis_line, grid_line, obs_line, req_line, root_line, rule_line, to_line,
};
pub use spec_reader::{PieceReader, TextFault};
pub use spell::put_number;
pub use traces::put_head;
pub use whole::{put_terms, write_spec};

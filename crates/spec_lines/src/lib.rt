//! The form of a specification's text, line by line: each line as a value with its text, which line may follow which,
//! the ranges, reading as functions on lists, and the lines at fault (docs/FORMATS.md, "The text of a
//! specification").
#![tactic(auto)]

mod laws;

pub use laws::{
    ascending_is_sorted, items_ascend_by_text, line_is_read, texts_are_answered, texts_are_files,
};

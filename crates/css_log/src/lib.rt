//! One history of words that one writer makes longer while one reader copies it, with no lock
//! (docs/RULES.md, "The log").
//!
//! The words lie in a table of shared words that is taken whole when the log is made: the count of published
//! words, the stop word, and the words of the records. Each call is a few atomic steps on it and waits for
//! nobody. How the words agree with what writer, reader and notes know, between any two steps of any
//! threads, stands in `specs/Agreement.antt`.
#![tactic(auto)]

mod log;
mod note;
mod reader;
mod rule;
#[cfg(test)]
mod tests;
mod view;
mod writer;

pub use log::Log;
pub use note::Note;
pub use reader::Reader;
pub use writer::Writer;

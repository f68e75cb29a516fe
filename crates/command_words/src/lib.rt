//! Reads the words of a command line (docs/FORMATS.md, "Command words").
#![tactic(auto)]

mod command;
mod found;
mod law;
mod meet;
mod parts;
mod read;
mod request;
mod values;

pub use command::Command;
pub use law::words_mean_one_thing;
pub use read::read_words;
pub use request::{OptName, Request, WordFault};
pub use values::ALL_LETTERS;

#[cfg(test)]
mod tests;

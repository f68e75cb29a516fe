//! Reading the text of a specification.
#![tactic(auto)]

mod drafts;
mod entries;
mod files;
mod pieces;
mod places;
mod reader;
mod readers;
mod reading;
mod taking;
#[cfg(test)]
mod tests;
mod values;

pub use entries::DraftEntry;
pub use files::{SpecText, TextFault, read_text};
pub use pieces::PieceReader;
pub use reader::SpecReader;
pub use values::LineFault;

use crate::command::Command;
use perm_core::{BasisFault, Perm};
use sequences::Sequence;
use thiserror::Error;
use work_packs::Packs;

/// The name of a value whose text is not one of its values.
#[derive(Clone, Copy, Debug, PartialEq, Eq)]
pub enum OptName {
    Workers,
    Budget,
    Terms,
    Pack,
    Number,
}

/// What the words of a command ask for. A part that the command does not use has its default.
#[derive(Drop)]
pub struct Request {
    pub command: Command,
    /// Empty where the command takes none.
    pub basis: Sequence<Perm>,
    /// How many workers, 1 to 64.
    pub workers: u32,
    /// How many classes may be expanded, 1 to 5,000.
    pub budget: u32,
    /// The last length of the terms, 0 to 200, of `count` 0 to 9.
    pub terms: u32,
    /// The letters of the strategies that are tried.
    pub packs: Packs,
    /// The number of `sample`, 0 to 1,000,000.
    pub number: u32,
}

/// Why the words of a command are refused; the first that applies in this order.
#[derive(Debug, Drop, PartialEq, Eq, Error)]
pub enum WordFault {
    /// The command is unknown, or its words are not plain.
    #[error("the words are not plain")]
    Words,
    /// The text that is given to a name is not one of its values; the first name for which this holds.
    #[error("a value is out of range")]
    Opt(OptName),
    /// The text of the basis is no list of words of distinct digits.
    #[error("the basis is malformed")]
    Basis(BasisFault),
    /// There was no memory.
    #[error("out of memory")]
    Memory,
}

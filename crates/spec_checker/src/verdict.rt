ghost use Rattle.std.specs.Prelude.{◌≡◌};
ghost use Rattle.spec_checker.specs.declared.verdict.CheckFault.TheVariants.{Memory};

use css_terms::Term;
use std::alloc::AllocError;
use thiserror::Error;

/// Why a text is not accepted for a basis: the first that applies, in this order (docs/FORMATS.md, "What the checker
/// does"). Lines are counted from 1, entries from 0.
#[derive(Clone, Copy, Debug, PartialEq, Eq, Drop, Error)]
pub enum CheckFault {
    /// No text has these first lines, up to this one, which may be missing or unfinished.
    #[error("line {line} is not of the form")]
    Grammar { line: u32 },
    /// The bytes are of the form, and this is the first line with a quantity out of its range.
    #[error("line {line} is out of range")]
    Limit { line: u32 },
    /// The text's basis isn't the given one.
    #[error("the text has another basis")]
    OtherBasis,
    /// The root's trace doesn't lead from the 1x1 tiling of the basis to the tiling of entry 0.
    #[error("the trace of the root does not lead to entry 0")]
    Root,
    /// The first entry whose tiling is an earlier one's, whose rule doesn't follow, or which isn't entry 0 and is
    /// named as a child by no earlier entry.
    #[error("entry {entry} is an earlier one again, does not follow or is named by no earlier one")]
    Rule { entry: u32 },
    /// The first entry with a child that can be as long as its parent and has no smaller rank, and the entry of its
    /// first such child.
    #[error("entry {child} is a child of entry {entry} without a smaller rank")]
    Rank { entry: u32, child: u32 },
    /// The first length at which the terms of the text and the counts of entry 0 differ, or one of them is missing.
    #[error("the term of length {length} is wrong")]
    Terms { length: u32 },
    /// There was no memory.
    #[error("out of memory")]
    Memory,
}

impl From<AllocError> for CheckFault {
    ghost from_gives = { λ _ fault. fault ≡ Memory };

    fn from(_: AllocError) -> CheckFault {
        CheckFault::Memory
    }
}

/// What an accepted text says: the number of its entries, and its terms, the counts for the lengths from 0 on.
#[derive(Drop)]
pub struct Checked {
    pub entries: u32,
    pub terms: Vec<Term>,
}

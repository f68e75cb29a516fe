use crate::pointed::Pointed;
use gridded::{CellSet, Gridded};
use sequences::{Copied, Sequence};
use std::alloc::{AllocError, Global};

/// Where the placed point lies farthest: up, down, to the right or to the left.
#[derive(Clone, Copy, Debug, PartialEq, Eq)]
pub enum Direction {
    North,
    South,
    East,
    West,
}

/// What a rule does (docs/RULES.md, "Kinds of rules").
#[derive(Debug, Drop, PartialEq, Eq)]
pub enum Kind {
    /// The unit tiling.
    Unit,
    /// The point tiling.
    Point,
    /// A tiling without members.
    Void,
    /// The members without a pattern, and those with it.
    Insert(Gridded),
    /// The members without the patterns, and those with them by the farthest pointed point.
    Place(Sequence<Pointed>, Direction),
    /// A row is cut in two, the points of the set below the others.
    RowCut(u8, CellSet),
    /// A column is cut in two, the points of the set left of the others.
    ColumnCut(u8, CellSet),
    /// The parts of the members in sets of cells that do not interact.
    Factor(Sequence<CellSet>),
    /// Patterns that no member holds become obstructions.
    Infer(Sequence<Gridded>),
}

impl Copied for Kind {
    fn copy(&self, alloc: Global) -> Result<Kind, AllocError> {
        match self {
            Kind::Unit => Ok(Kind::Unit),
            Kind::Point => Ok(Kind::Point),
            Kind::Void => Ok(Kind::Void),
            Kind::Insert(pattern) => Ok(Kind::Insert(*pattern)),
            Kind::Place(pointed, direction) => Ok(Kind::Place(pointed.copy(alloc)?, *direction)),
            Kind::RowCut(row, set) => Ok(Kind::RowCut(*row, *set)),
            Kind::ColumnCut(column, set) => Ok(Kind::ColumnCut(*column, *set)),
            Kind::Factor(sets) => {
                let sets = Vec::from_slice(alloc, sets.as_slice())?;
                Ok(Kind::Factor(Sequence::of(sets)))
            }
            Kind::Infer(patterns) => Ok(Kind::Infer(patterns.copy(alloc)?)),
        }
    }
}

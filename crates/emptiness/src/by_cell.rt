ghost use Rattle.std.specs.Prelude.{◌≡◌, IfOk, filter};
ghost use Rattle.std.specs.List.{list_any};
ghost use Rattle.gridded.specs.Grids.{holds};
ghost use Rattle.emptiness.specs.ByCell.{has_point_in, IsByCell};

use gridded::{Cell, Gridded, holds};
use sequences::Sequence;
use std::alloc::{AllocError, Global};

/// The patterns of a list that have a point in a cell.
#[derive(Drop)]
pub(crate) struct At {
    cell: Cell,
    patterns: Sequence<Gridded>,
}

/// Whether a pattern has a point in a cell.
fn has_point_in(cell: Cell, pattern: &Gridded) -> bool
    ensures { result ≡ has_point_in cell pattern.now }
{
    pattern.cells().iter().any(|other| cell == *other)
}

/// The patterns that have a point in a cell.
fn touching(alloc: Global, cell: Cell, patterns: &[Gridded]) -> Result<Vec<Gridded>, AllocError>
    ensures { IfOk result (λ found. found.items ≡ filter (has_point_in cell) patterns.now) }
{
    patterns
        .iter()
        .filter(|pattern| has_point_in(cell, pattern))
        .copied()
        .collect(alloc)
}

/// The patterns by the cells of their points, for the cells named.
pub(crate) fn by_cell(
    alloc: Global,
    cells: &[Cell],
    patterns: &[Gridded],
) -> Result<Vec<At>, AllocError>
    ensures { IfOk result (λ index. IsByCell patterns.now index.items) }
{
    let mut index = Vec::new(alloc);
    for cell in cells {
        let there = touching(alloc, *cell, patterns)?;
        index.push(At {
            cell: *cell,
            patterns: Sequence::of(there),
        })?;
    }
    Ok(index)
}

/// Whether a pattern is held, which needs no search where it is longer.
#[tactic(auto, using(crate::proofs::Untouched::measuring))]
fn is_held(g: &Gridded, pattern: &Gridded) -> bool
    ensures { result ≡ holds g.now pattern.now }
{
    if pattern.len() > g.len() {
        return false;
    }
    holds(g, pattern)
}

/// Whether one of the patterns is held.
pub(crate) fn holds_one(g: &Gridded, patterns: &[Gridded]) -> bool
    ensures { result ≡ list_any (λ p. holds g.now p) patterns.now }
{
    patterns.iter().any(|pattern| is_held(g, pattern))
}

/// Whether one of the patterns is held, where the caller knows that one without a point in the cell isn't.
pub(crate) fn holds_one_at(g: &Gridded, cell: Cell, patterns: &[Gridded], index: &[At]) -> bool
    requires indexed { IsByCell patterns.now index.now }
    requires there { list_any (λ p. holds g.now p) (filter (has_point_in cell) patterns.now) ≡ list_any (λ p. holds g.now p) patterns.now }
    ensures { result ≡ list_any (λ p. holds g.now p) patterns.now }
{
    for at in index {
        if at.cell == cell {
            return holds_one(g, at.patterns.as_slice());
        }
    }
    holds_one(g, patterns)
}

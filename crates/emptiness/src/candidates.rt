ghost use Rattle.std.specs.Prelude.{◌≡◌, ◌++◌, OnOk, IfOk};
ghost use Rattle.emptiness.specs.Candidates.{pairs_of, candidates_with, candidates_of};

use gridded::{Cell, Gridded};
use std::alloc::{AllocError, Global};

/// Adds the patterns with a point in one cell and then a point in another.
fn add_pairs(found: &mut Vec<Gridded>, cell: Cell, other: Cell) -> Result<(), AllocError>
    ensures { OnOk result (found.new.items ≡ found.old.items ++ pairs_of cell other) }
{
    if cell.x > other.x {
        return Ok(());
    }
    if cell.y <= other.y {
        found.push(Gridded::rising(cell, other))?;
    }
    if other.y <= cell.y {
        found.push(Gridded::falling(cell, other))?;
    }
    Ok(())
}

/// Adds the patterns with a point in a cell, alone or left of a point in one of the cells.
fn add_with(found: &mut Vec<Gridded>, cell: Cell, cells: &[Cell]) -> Result<(), AllocError>
    ensures { OnOk result (found.new.items ≡ found.old.items ++ candidates_with cells.now cell) }
{
    found.push(Gridded::point_at(cell))?;
    for other in cells {
        add_pairs(found, cell, *other)?;
    }
    Ok(())
}

/// The patterns of one or two points in the cells.
pub(crate) fn candidates(alloc: Global, cells: &[Cell]) -> Result<Vec<Gridded>, AllocError>
    ensures { IfOk result (λ found. found.items ≡ candidates_of cells.now) }
{
    let mut found = Vec::new(alloc);
    for cell in cells {
        add_with(&mut found, *cell, cells)?;
    }
    Ok(found)
}

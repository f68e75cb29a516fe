ghost use Rattle.std.specs.Prelude.{◌≡◌, ◌<◌, ◌++◌, OnOk, IfOk};
ghost use Rattle.gridded.specs.CellSets.{IsCellSet, one_of, column_of};

use crate::cell::Cell;
use crate::cell_set::CellSet;
use std::alloc::{AllocError, Global};

/// Adds a cell that is in a set.
fn add_cell(found: &mut Vec<Cell>, set: CellSet, cell: Cell) -> Result<(), AllocError>
    requires left { cell.x < 8 }
    requires low { cell.y < 8 }
    ensures { OnOk result (found.new.items ≡ found.old.items ++ one_of set cell) }
{
    if set.has(cell) {
        found.push(cell)?;
    }
    Ok(())
}

/// Adds the cells of a set that stand in a column.
fn add_column(found: &mut Vec<Cell>, set: CellSet, x: u8) -> Result<(), AllocError>
    requires { x < 8 }
    ensures { OnOk result (found.new.items ≡ found.old.items ++ column_of set x 8) }
{
    for y in 0..8 {
        add_cell(found, set, Cell { x, y })?;
    }
    Ok(())
}

/// The cells of a set, ascending.
pub(crate) fn cells_of(alloc: Global, set: CellSet) -> Result<Vec<Cell>, AllocError>
    requires { IsCellSet set }
    ensures { IfOk result (λ cells. cells.items ≡ set) }
{
    let mut found = Vec::new(alloc);
    for x in 0..8 {
        add_column(&mut found, set, x)?;
    }
    Ok(found)
}

ghost use Rattle.std.specs.Prelude.{◌≡◌, ◌<◌, ◌++◌, ◌∷◌, [], OnOk, IfOk, filter, map};
ghost use Rattle.std.specs.List.{range_with_len};
ghost use Rattle.gridded.specs.CellSets.{is_among};
ghost use Rattle.spec_lines.specs.Kinds.{set_text};

use crate::spell::{Spell, put_separated};
use gridded::{Cell, CellSet};
use std::alloc::{AllocError, Global};

/// Adds a cell that is in a set.
fn add_cell(cells: &mut Vec<Cell>, set: CellSet, cell: Cell) -> Result<(), AllocError>
    requires left { cell.x < 8 }
    requires low { cell.y < 8 }
    ensures { OnOk result (cells.new.items ≡ cells.old.items ++ filter (is_among set) (cell ∷ [])) }
{
    if !set.has(cell) {
        return Ok(());
    }
    cells.push(cell)?;
    Ok(())
}

/// Adds the cells of a set that lie in a column, from the bottom up.
fn add_column(cells: &mut Vec<Cell>, set: CellSet, x: u8) -> Result<(), AllocError>
    requires { x < 8 }
    ensures { OnOk result (cells.new.items ≡ cells.old.items ++ filter (is_among set) (map (λ y. record { x = x; y = y }) (range_with_len 0 8))) }
{
    for y in 0..8 {
        add_cell(cells, set, Cell { x, y })?;
    }
    Ok(())
}

/// The cells of a set, ascending.
fn cells_of(alloc: Global, set: CellSet) -> Result<Vec<Cell>, AllocError>
    ensures { IfOk result (λ cells. cells.items ≡ set) }
{
    let mut cells = Vec::with_capacity(alloc, set.count() as usize)?;
    for x in 0..8 {
        add_column(&mut cells, set, x)?;
    }
    Ok(cells)
}

impl Spell for CellSet {
    ghost text = { set_text };

    fn put(&self, out: &mut Vec<u8>) -> Result<(), AllocError> {
        let cells = cells_of(*out.allocator(), *self)?;
        put_separated(out, b'.', cells.as_slice())
    }
}

ghost use Rattle.std.specs.Prelude.{◌≡◌, ◌<◌, ◌≤◌, ◌++◌, IfOk, OnOk};
ghost use Rattle.rule_kinds.specs.Choices.{insertions};
ghost use Rattle.insertion.specs.Open.{insertion_at, insertions_in};

use gridded::{Cell, CellSet, Gridded};
use normal_form::required_cells;
use rule_kinds::Kind;
use std::alloc::{AllocError, Global};
use tiling_core::{Tiling, active};

/// Adds the insertion of the point at a cell that is active and whose point is not required.
fn add_at(
    kinds: &mut Vec<Kind>,
    active: CellSet,
    required: CellSet,
    cell: Cell,
) -> Result<(), AllocError>
    requires left { cell.x < 8 }
    requires low { cell.y < 8 }
    ensures { OnOk result (kinds.new.items ≡ kinds.old.items ++ insertion_at active required cell) }
{
    if active.has(cell) && !required.has(cell) {
        kinds.push(Kind::Insert(Gridded::point_at(cell)))?;
    }
    Ok(())
}

/// Adds the insertions at the cells of a column.
fn add_column(
    kinds: &mut Vec<Kind>,
    active: CellSet,
    required: CellSet,
    x: u8,
    height: u8,
) -> Result<(), AllocError>
    requires left { x < 8 }
    requires low { height ≤ 8 }
    ensures { OnOk result (kinds.new.items ≡ kinds.old.items ++ insertions_in active required x height) }
{
    for y in 0..height {
        add_at(kinds, active, required, Cell { x, y })?;
    }
    Ok(())
}

/// The insertions that are tried on a tiling: of the point at each active cell, ascending, but for cells whose
/// point alone is a requirement list. The refusal is want of memory (docs/RULES.md, "Kinds of rules").
pub fn arguments(alloc: Global, tiling: &Tiling) -> Result<Vec<Kind>, AllocError>
    ensures { IfOk result (λ kinds. kinds.items ≡ insertions tiling.now) }
{
    let active = active(tiling);
    let required = required_cells(tiling);
    let mut kinds = Vec::new(alloc);
    for x in 0..tiling.width() {
        add_column(&mut kinds, active, required, x, tiling.height())?;
    }
    Ok(kinds)
}

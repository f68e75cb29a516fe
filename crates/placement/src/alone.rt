// What forbids all points on the lines of a cell but one in the cell itself.
ghost use Rattle.std.specs.Prelude.{◌≡◌, ◌++◌, cond, [], ◌∷◌, IfOk};
ghost use Rattle.gridded.specs.Small.{point_at};
ghost use Rattle.rule_kinds.specs.Children.{alone_in};
ghost use Rattle.placement.specs.Placing.{blank, is_beside, beside_in};

use gridded::{Cell, Gridded};
use std::alloc::AllocError;

/// Whether a cell is another one on a line of the middle cell.
pub(crate) fn is_beside(middle: Cell, cell: Cell) -> bool
    ensures { result ≡ is_beside middle cell }
{
    (cell.x == middle.x || cell.y == middle.y) && cell != middle
}

/// Adds the point at a cell that is another one on a line of the middle cell.
fn add_beside(middle: Cell, cell: Cell, found: &mut Vec<Gridded>) -> Result<(), AllocError>
    ensures { IfOk result (λ _. found.new.items ≡ found.old.items ++ cond (is_beside middle cell) (point_at cell ∷ []) []) }
{
    if is_beside(middle, cell) {
        found.push(Gridded::point_at(cell))?;
    }
    Ok(())
}

/// Adds the points at such cells of a column.
fn add_beside_in(
    middle: Cell,
    x: u8,
    height: u8,
    found: &mut Vec<Gridded>,
) -> Result<(), AllocError>
    ensures { IfOk result (λ _. found.new.items ≡ found.old.items ++ beside_in middle x height) }
{
    for y in 0..height {
        add_beside(middle, Cell { x, y }, found)?;
    }
    Ok(())
}

/// Adds the obstructions of a grid that leave at most one point in the middle cell, and none in the other cells of its
/// column and its row.
pub(crate) fn add_alone(
    middle: Cell,
    width: u8,
    height: u8,
    found: &mut Vec<Gridded>,
) -> Result<(), AllocError>
    ensures { IfOk result (λ _. found.new.items ≡ found.old.items ++ alone_in (blank width height) middle) }
{
    found.push(Gridded::rising(middle, middle))?;
    found.push(Gridded::falling(middle, middle))?;
    for x in 0..width {
        add_beside_in(middle, x, height, found)?;
    }
    Ok(())
}

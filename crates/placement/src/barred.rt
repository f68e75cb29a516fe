// The cells beside a placed point, where there is no other point.
ghost use Rattle.std.specs.Prelude.{◌≡◌, ◌<◌, ◌≤◌, ℕ};
ghost use Rattle.gridded.specs.Laws.{IsCellOf};
ghost use Rattle.placement.specs.Thinning.{AreBeside};

use crate::alone::is_beside;
use gridded::{Cell, CellSet};

/// Adds a cell of the grid to those that are barred, where it is another one on a line of the middle cell.
fn with_beside(set: CellSet, middle: Cell, cell: Cell) -> CellSet
    requires column { cell.x < 8 }
    requires row { cell.y < 8 }
    ensures { (w h : ℕ) → AreBeside w h middle set → IsCellOf w h cell → AreBeside w h middle result }
{
    if !is_beside(middle, cell) {
        return set;
    }
    set.with(cell)
}

/// Adds the other cells of the middle cell's row.
fn with_row(set: CellSet, middle: Cell, width: u8) -> CellSet
    requires narrow { width ≤ 8 }
    requires row { middle.y < 8 }
    ensures { (h : ℕ) → middle.y < h → AreBeside width h middle set → AreBeside width h middle result }
{
    let mut cells = set;
    for x in 0..width {
        cells = with_beside(cells, middle, Cell { x, y: middle.y });
    }
    cells
}

/// Adds the other cells of the middle cell's column.
fn with_column(set: CellSet, middle: Cell, height: u8) -> CellSet
    requires low { height ≤ 8 }
    requires column { middle.x < 8 }
    ensures { (w : ℕ) → middle.x < w → AreBeside w height middle set → AreBeside w height middle result }
{
    let mut cells = set;
    for y in 0..height {
        cells = with_beside(cells, middle, Cell { x: middle.x, y });
    }
    cells
}

/// The cells of the middle cell's column and row other than itself.
pub(crate) fn barred(middle: Cell, width: u8, height: u8) -> CellSet
    requires narrow { width ≤ 8 }
    requires low { height ≤ 8 }
    requires column { middle.x < width }
    requires row { middle.y < height }
    ensures { AreBeside width height middle result }
{
    let row = with_row(CellSet::none(), middle, width);
    with_column(row, middle, height)
}
